ghost use Rattle.std.specs.Prelude.{◌≡◌, ◌++◌, ◌<◌, ◌^◌, ℕ, Bool, List, length, Ok};
ghost use Rattle.ps_codec.specs.Fields.{IsBytes, u8_field, u32_field, u64_field, flag_field, bytes_field};
ghost use Rattle.ps_codec.specs.Found.{u8_at, u32_at, u64_at, flag_at, bytes_at};

/// What was written is read back, whatever follows it.
pub fn written_is_read()
    ensures u8 { (value : ℕ) (rest : List ℕ) → u8_at (u8_field value ++ rest) ≡ Ok (value, rest) }
    ensures u32 { (value : ℕ) (rest : List ℕ) → value < 2 ^ 32
        → u32_at (u32_field value ++ rest) ≡ Ok (value, rest) }
    ensures u64 { (value : ℕ) (rest : List ℕ) → value < 2 ^ 64
        → u64_at (u64_field value ++ rest) ≡ Ok (value, rest) }
    ensures flag { (value : Bool) (rest : List ℕ) → flag_at (flag_field value ++ rest) ≡ Ok (value, rest) }
    ensures bytes { (value rest : List ℕ) → length value < 2 ^ 32
        → bytes_at (bytes_field value ++ rest) ≡ Ok (value, rest) }
{}

/// Nothing else is read: the bytes begin with the field of the value that is read, and the value fits this field.
pub fn only_what_is_written_is_read()
    ensures u8 { (bytes : List ℕ) (value : ℕ) (rest : List ℕ) → u8_at bytes ≡ Ok (value, rest)
        → bytes ≡ u8_field value ++ rest }
    ensures u32 { (bytes : List ℕ) (value : ℕ) (rest : List ℕ) → IsBytes bytes
        → u32_at bytes ≡ Ok (value, rest) → (bytes ≡ u32_field value ++ rest) × (value < 2 ^ 32) }
    ensures u64 { (bytes : List ℕ) (value : ℕ) (rest : List ℕ) → IsBytes bytes
        → u64_at bytes ≡ Ok (value, rest) → (bytes ≡ u64_field value ++ rest) × (value < 2 ^ 64) }
    ensures flag { (bytes : List ℕ) (value : Bool) (rest : List ℕ) → flag_at bytes ≡ Ok (value, rest)
        → bytes ≡ flag_field value ++ rest }
    ensures bytes { (bytes value rest : List ℕ) → IsBytes bytes → bytes_at bytes ≡ Ok (value, rest)
        → (bytes ≡ bytes_field value ++ rest) × (length value < 2 ^ 32) }
{}
