//! What joins the spelling of records and their reading.
ghost use Rattle.nb_envelope.specs.Formats.{IsFormat, NoneBegins};
ghost use Rattle.nb_outbox.specs.Spelled.{spelled_record, IsRecord};
ghost use Rattle.nb_outbox.specs.Read.{record_in};

/// Records.
pub fn law_records()
    ensures both_ways { IsFormat IsRecord spelled_record record_in }
    ensures none_begins { NoneBegins IsRecord spelled_record }
{}
