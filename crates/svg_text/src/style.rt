//! The style of pictures: what is drawn has a class of this style, and some of it a color of its own.

/// The style of a picture, light or dark as the reader has it.
pub const STYLE: &str = "\
svg{font-family:DejaVu Sans,Verdana,sans-serif;fill:#1f2933}\
text{font-size:11px}\
.back{fill:#fff}.lane{fill:#f6f7f9}\
.head{font-size:17px;font-weight:bold}.name{font-weight:bold}\
.quiet{font-size:10px;fill:#6b7785}.quiet,.small{font-size:10px}\
.left{text-anchor:end}.mid{text-anchor:middle}\
.bad{fill:#c92a2a;font-weight:bold}\
path{fill:none}\
.grid{stroke:#dfe3e8}.life{stroke-opacity:.45}\
.step{stroke-width:22}.slim{stroke-width:16}\
.fail,.block{stroke:#c92a2a;stroke-width:18}.block{stroke-opacity:.75}.fail.slim,.block.slim{stroke-width:12}\
.ack,.idle{stroke:#212529;stroke-width:3}.idle{stroke:#adb5bd}\
.work,.pause,.cycle{stroke:#495057;stroke-width:10}.pause{stroke:#adb5bd}.cycle{stroke:#2b8a3e}\
.key{stroke-width:10}.gone{stroke:#adb5bd;stroke-width:4}\
.cut{stroke:#fff;stroke-opacity:.55}\
.hatch{stroke:#ffb3b3;stroke-width:14;stroke-dasharray:2 4}.hatch.slim{stroke-width:8}\
.start,.join{stroke:#868e96}.start-tip{fill:#868e96}.join{stroke-dasharray:3 2}.wait{stroke:#c92a2a;stroke-width:1.3}.wait-tip{fill:#c92a2a}\
.dotted{stroke:#c92a2a;stroke-width:1.5;stroke-dasharray:2 3}\
.diamond{fill:#212529;stroke:#fff;stroke-width:.6}\
.ring{fill:#fff;stroke-width:2}.cross{stroke:#c92a2a;stroke-width:2.4}\
.mark{fill:#1f2933}\
.held{stroke-width:4}.held.slim{stroke-width:3}.letter{font-size:9px}.code{font-family:DejaVu Sans Mono,monospace;font-size:9px;fill:#6b7785}\
.load{fill:#fff;stroke-width:1.5}.store{fill:none;stroke-width:4}.update{stroke-width:1.4}.lost{stroke:#c92a2a;stroke-width:2}\
.p1{fill:#e6b400}.p2{fill:#f08c00}.p3{fill:#40a840}.p4{fill:#22a6c4}.p5{fill:#3b7ae0}.p6{fill:#7a5be0}.p7{fill:#dd5a98}\
rect.p1,rect.p2,rect.p3,rect.p4,rect.p5,rect.p6,rect.p7{fill-opacity:.28}\
.old{stroke:#4c6ef5;stroke-width:1.6}.new{stroke:#f08c00;stroke-width:1.6}\
.old-area{fill:#4c6ef5;fill-opacity:.2}.new-area{fill:#f08c00;fill-opacity:.2}\
.tip{fill-opacity:0}\
@media(prefers-color-scheme:dark){\
svg{fill:#d7dde4}.back{fill:#14181d}.lane{fill:#1e242b}.quiet,.code{fill:#8b96a3}.bad{fill:#ff8787}\
.grid{stroke:#323a44}.cut{stroke:#14181d}.ack{stroke:#f1f3f5}.idle{stroke:#5c6773}\
.diamond{fill:#f1f3f5;stroke:#14181d}.ring,.load{fill:#14181d}.mark{fill:#d7dde4}.hatch{stroke:#8a3b3b}.work{stroke:#ced4da}.pause{stroke:#5c6773}}";

/// A class of the style, or several of them.
#[derive(Clone, Copy)]
pub enum Class {
    Acknowledgement,
    Back,
    Bad,
    Block,
    BlockKey,
    BlockSlim,
    Code,
    Cross,
    Cut,
    Cycle,
    CycleKey,
    Diamond,
    Dotted,
    Fail,
    FailSlim,
    Gone,
    Grid,
    Hatch,
    HatchKey,
    HatchSlim,
    Head,
    Held,
    HeldSlim,
    Idle,
    Join,
    Lane,
    Letter,
    Life,
    Load,
    Lost,
    Mark,
    NameLeft,
    New,
    NewArea,
    Old,
    OldArea,
    Output,
    Pause,
    PauseKey,
    PhaseMark,
    PhaseAllocate,
    PhaseCopy,
    PhasePreFlip,
    PhaseHeapFlip,
    PhaseThreadFlip,
    PhaseReclaim,
    Plain,
    Quiet,
    QuietLeft,
    QuietMiddle,
    Ring,
    Small,
    Start,
    StartTip,
    Step,
    StepKey,
    StepSlim,
    Store,
    Tip,
    Update,
    Wait,
    WaitTip,
    Work,
    WorkKey,
}

/// The names of the classes in the style, in the order of `Class`.
const CLASSES: [&str; 64] = [
    "ack",
    "back",
    "bad",
    "block",
    "block key",
    "block slim",
    "code left",
    "cross",
    "cut",
    "cycle",
    "cycle key",
    "diamond",
    "dotted",
    "fail",
    "fail slim",
    "gone",
    "grid",
    "hatch",
    "hatch key",
    "hatch slim",
    "head",
    "held",
    "held slim",
    "idle",
    "join",
    "lane",
    "letter left",
    "life",
    "load",
    "lost",
    "mark",
    "name left",
    "new",
    "new-area",
    "old",
    "old-area",
    "name small mid",
    "pause",
    "pause key",
    "p1",
    "p2",
    "p3",
    "p4",
    "p5",
    "p6",
    "p7",
    "plain",
    "quiet",
    "quiet left",
    "quiet mid",
    "ring",
    "small",
    "start",
    "start-tip",
    "step",
    "step key",
    "step slim",
    "store",
    "tip",
    "update",
    "wait",
    "wait-tip",
    "work",
    "work key",
];

impl Class {
    /// Its name in the style.
    pub fn name(self) -> &'static str {
        CLASSES[self as usize]
    }
}

/// The colors of threads. Readers who see few colors can tell them apart.
const THREADS: [&str; 16] = [
    "#0072B2", "#D55E00", "#009E73", "#CC79A7", "#7A5195", "#8C6D31", "#3B8EA5", "#A23B3B",
    "#4C6EF5", "#E8890C", "#2B8A3E", "#C2255C", "#6741D9", "#5C940D", "#1098AD", "#862E2E",
];

/// The colors of the stripes of monitors.
const MONITORS: [&str; 6] = [
    "#E69F00", "#56B4E9", "#6BBF59", "#C77CFF", "#F06595", "#94A3B8",
];

/// A color.
#[derive(Clone, Copy)]
pub enum Color {
    /// That of the class, or of what an element stands in.
    Inherit,
    /// That of the thread of this number.
    Thread(usize),
    /// That of the stripes of the monitor of this number.
    Monitor(usize),
}

impl Color {
    /// Its text as the value of an attribute.
    pub fn text(self) -> &'static str {
        match self {
            Color::Inherit => "inherit",
            Color::Thread(thread) => THREADS[thread % 16],
            Color::Monitor(monitor) => MONITORS[monitor % 6],
        }
    }
}
