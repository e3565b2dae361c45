// Ten facts of the rules, proved as one list.
#![tactic(auto)]

ghost use Rattle.facts.specs.Facts.{TenFacts};

pub fn ten_facts()
    ensures { TenFacts }
{}
