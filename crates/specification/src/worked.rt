//! Worked recordings, as the contracts of a function with an empty body: what the definitions say of each.

ghost use Rattle.specification.specs.WorkedRecordings.{EmptyRecording, InsertDeleteRead, ThreeWayCycle};
ghost use Rattle.specification.specs.WorkedRecordings.{OppositePair, RingOfFour, ReadShowsDeleted};
ghost use Rattle.specification.specs.WorkedRecordings.{RepeatedName, ChainOfReceipts, InsertPastTheEnd};
ghost use Rattle.specification.specs.WorkedRecordings.{DeletedBeforeInserted, DoubledName, Receipts};
ghost use Rattle.specification.specs.WorkedRecordings.{LeastOfSeveralOrders, Views};
ghost use Rattle.specification.specs.WorkedCertificates.{ValidCertificates, WrittenRows, WrongCertificates};
ghost use Rattle.specification.specs.WorkedCertificates.{OtherVersions, ForgedLayers};
ghost use Rattle.specification.specs.WorkedTexts.{MalformedLines};

/// Small recordings with their verdicts, by the definitions themselves: each is legal, the verdict given is
/// its verdict (so it is the only one), and its report has the lines given. They show that the definitions
/// mean what their words say.
pub fn worked_recordings()
    ensures empty_recording { EmptyRecording }
    ensures insert_delete_read { InsertDeleteRead }
    ensures three_way_cycle { ThreeWayCycle }
    ensures opposite_pair { OppositePair }
    ensures ring_of_four { RingOfFour }
    ensures read_shows_deleted { ReadShowsDeleted }
    ensures repeated_name { RepeatedName }
    ensures chain_of_receipts { ChainOfReceipts }
    ensures insert_past_the_end { InsertPastTheEnd }
    ensures deleted_before_inserted { DeletedBeforeInserted }
    ensures doubled_name { DoubledName }
    ensures receipts { Receipts }
    ensures least_of_several_orders { LeastOfSeveralOrders }
    ensures views { Views }
{}

/// Certificates of both versions for these recordings: which are valid, the first reason against others, the
/// rows that are written for a refusal, rows of the other version, and forged layers that a checker must not
/// believe.
pub fn worked_certificates()
    ensures valid_certificates { ValidCertificates }
    ensures written_rows { WrittenRows }
    ensures wrong_certificates { WrongCertificates }
    ensures other_versions { OtherVersions }
    ensures forged_layers { ForgedLayers }
{}

/// Trace texts with a fault: the line that is named, counted from 1, and its cause.
pub fn worked_texts()
    ensures { MalformedLines }
{}
