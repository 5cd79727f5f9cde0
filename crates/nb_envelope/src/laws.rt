//! What joins the spellings of cells and their reading, for all bytes: what is read is spelled so, what is spelled so
//! is read again, whatever follows, and so no spelling begins another one.
ghost use Rattle.std.specs.Prelude.{◌<◌, ◌^◌, FitsSigned};
ghost use Rattle.std.specs.Int.{w64};
ghost use Rattle.nb_envelope.specs.Spelling.{spelled_u32, spelled_u64, spelled_int, spelled_flag, spelled_text, spelled_value, spelled_due, spelled_envelope};
ghost use Rattle.nb_envelope.specs.Spelling.{IsText, IsValue, IsDue, IsEnvelope};
ghost use Rattle.nb_envelope.specs.Cells.{u32_in, u64_in, int_in, flag_in, text_in, value_in, due_in, envelope_in};
ghost use Rattle.nb_envelope.specs.Formats.{IsFormat, NoneBegins};

/// Numbers.
pub fn law_numbers()
    ensures short { IsFormat (λ n. n < 2 ^ 32) spelled_u32 u32_in }
    ensures long { IsFormat (λ n. n < 2 ^ 64) spelled_u64 u64_in }
    ensures signed { IsFormat (FitsSigned w64) spelled_int int_in }
{}

/// Texts.
pub fn law_texts()
    ensures both_ways { IsFormat IsText spelled_text text_in }
    ensures none_begins { NoneBegins IsText spelled_text }
{}

/// Values.
pub fn law_values()
    ensures both_ways { IsFormat IsValue spelled_value value_in }
    ensures none_begins { NoneBegins IsValue spelled_value }
{}

/// Dues.
pub fn law_dues()
    ensures both_ways { IsFormat IsDue spelled_due due_in }
    ensures none_begins { NoneBegins IsDue spelled_due }
{}

/// Envelopes.
pub fn law_envelopes()
    ensures both_ways { IsFormat IsEnvelope spelled_envelope envelope_in }
    ensures none_begins { NoneBegins IsEnvelope spelled_envelope }
{}
