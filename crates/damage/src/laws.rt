//! Laws of the text of damage, as the contract of a function that does nothing.
ghost use Rattle.damage.specs.Laws.{LinesAreCut, LinesStandAside, TextIsWhole, DamageIsSilent};

/// What a text of damage is among the output: its lines are those of its definition, each of them stands aside, it is
/// whole, and wherever a sending of it ends, it has acknowledged nothing and strip leaves nothing of it.
pub fn damage_stands_aside()
    ensures cut { LinesAreCut }
    ensures aside { LinesStandAside }
    ensures whole { TextIsWhole }
    ensures silent { DamageIsSilent }
{}
