ghost use Rattle.record.specs.Evidence.{Evidence};

// A text that passes holds a best allotment of its round, and each best one has levels with which its record passes.
pub fn evidence_stands()
    ensures { Evidence }
{}
