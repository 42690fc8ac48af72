// What the definition of a request is meant to have.
ghost use Rattle.ps_http.specs.Laws.{OneAnswer, PrefixFree, Stays};

/// Any bytes wait, are refused with one code, or are one request of one length.
pub fn law_one_answer()
    ensures { OneAnswer }
{}

/// Bytes that are refused, or begin with a request, stay so whatever bytes are added.
pub fn law_stays()
    ensures { Stays }
{}

/// No request is a proper prefix of another one.
pub fn law_prefix_free()
    ensures { PrefixFree }
{}
