//! What holds of reading. This function does nothing; its contract is a law.

ghost use Rattle.cobol_read.specs.Laws.{ReadsOneWay};

/// Bytes are at most one program, and either a program or refused for exactly one cause.
pub fn source_is_read_one_way()
    ensures { ReadsOneWay }
{}
