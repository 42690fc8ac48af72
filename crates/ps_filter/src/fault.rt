use ps_base::OutOfMemory;

/// Why a text isn't a filter. Places are bytes, counted from 0.
#[derive(Debug, Drop)]
pub enum FilterError {
    /// It has more than 256 bytes.
    TooLong,
    /// At this byte, `AND` or `OR` appears at a level that already has the other one.
    Mixed { at: u32 },
    /// At this byte there is something with which no filter continues or which begins no token, or the text ends.
    Syntax { at: u32 },
    OutOfMemory,
}

impl From<OutOfMemory> for FilterError {
    ghost use Rattle.std.specs.Prelude.{◌≡◌};
    ghost use Rattle.ps_filter.specs.declared.fault.FilterError.TheVariants as error;

    ghost from_gives = { λ _ e. e ≡ error.OutOfMemory };

    fn from(_e: OutOfMemory) -> FilterError {
        FilterError::OutOfMemory
    }
}
