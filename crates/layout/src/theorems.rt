ghost use Rattle.layout.specs.Records.{AllRecorded};
ghost use Rattle.layout.specs.Render.{ReadsRecords, OneText, AllShort, EarliestDecides, CutBeforeFault};
ghost use Rattle.layout.specs.Runs.{OneOutcome, SomeOutcome};

// A text reads as contents exactly when it is their record and they keep the rules; so no two texts read alike.
pub fn reading_stands()
    ensures spelling { ReadsRecords }
    ensures apart { OneText }
{}

// Each text comes to one outcome: contents that it reads as, or one refusal at one line. The earliest faulty line decides: what follows it plays no
// part, and no line above it is at fault.
pub fn outcomes_stand()
    ensures some { SomeOutcome }
    ensures one { OneOutcome }
    ensures earliest { EarliestDecides }
    ensures cut { CutBeforeFault }
{}

// Each round, allotment and levels have their record; and no record is longer than 15,000 bytes.
pub fn records_stand()
    ensures recorded { AllRecorded }
    ensures short { AllShort }
{}
