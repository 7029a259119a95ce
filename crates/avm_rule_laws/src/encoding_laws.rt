//! That no encoding begins another of its kind.

ghost use Rattle.avm_rule_laws.specs.Encodings.{HeadersApart, OutcomesApart, SchemasApart, StatesApart, ValuesApart};

/// No encoding of an outcome begins another.
pub fn outcomes_apart()
    ensures { OutcomesApart }
{}

/// No encoding of a header begins another, of the same profile.
pub fn headers_apart()
    ensures { HeadersApart }
{}

/// No encoding of a value, a state or a schema begins another.
pub fn states_apart()
    ensures values { ValuesApart }
    ensures states { StatesApart }
    ensures schemas { SchemasApart }
{}
