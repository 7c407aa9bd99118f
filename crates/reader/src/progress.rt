// What has been read, and what may follow.
use crate::sketches::{Head, Sketch};
use description::descriptions::Description;
use pattern::names::ShortName;

// The low end of a constant's range, and where it stands.
#[derive(Clone, Copy)]
pub struct LowEnd {
    pub value: u32,
    pub place: usize,
}

// What may follow, with what has been read of the line.
#[derive(Clone, Copy)]
pub enum Expect {
    HeaderEnd,
    Directive,
    NewName,
    NamePlace(ShortName),
    DeclarationEnd,
    StartName,
    StartEnd,
    RuleOrEnd,
    LeftColon(Sketch),
    FirstPart(Sketch),
    NextPart(Sketch),
    Opening(Head, Sketch),
    AfterPart(Sketch),
    AfterConstant(Sketch),
    LowEnd(Sketch),
    TwoDots(LowEnd, Sketch),
    HighEnd(LowEnd, Sketch),
    Mnemonic(Sketch),
    // Holds the mnemonic, and none for a rename.
    Size(Option<ShortName>, Sketch),
    // Holds the size too.
    Cycles(u32, Option<ShortName>, Sketch),
    RuleEnd,
}

// The description so far, and where the line began.
#[derive(Clone, Copy)]
pub struct Progress {
    pub description: Description,
    pub line_start: usize,
}
