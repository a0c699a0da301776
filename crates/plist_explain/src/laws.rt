//! The table is complete.
ghost use Rattle.plist_explain.specs.Topics.{ExplainsLines, ExplainsRefusals, ExplainsReports};
ghost use Rattle.plist_explain.specs.Topics.{ExplainsRules, ExplainsVerdicts};

/// Each refusal is explained by its number, by its name, and by the line that is printed for it;
/// each rule by its name, and by the line that is printed if it is broken; and both by their lines
/// of the list.
pub fn each_is_explained()
    ensures lines { ExplainsLines }
    ensures refusals { ExplainsRefusals }
    ensures rules { ExplainsRules }
    ensures reports { ExplainsReports }
    ensures verdicts { ExplainsVerdicts }
{}
