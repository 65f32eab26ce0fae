//! Lengths and colours. Lengths are in user units, which are pixels if a picture is shown at its own size.

/// The radius of a rounded corner.
pub(crate) const RADIUS: u32 = 10;

/// The length of the line between two parts, and the vertical distance between two.
pub(crate) const GAP: u32 = 10;

/// The padding at each side of a box's label.
pub(crate) const PADDING: u32 = 10;

/// Half the height of a box.
pub(crate) const HALF: u32 = 14;

/// The height of a line of text outside of boxes.
pub(crate) const NOTE: u32 = 16;

/// The radius of the mark at the end of the line.
pub(crate) const END: u32 = 7;

/// The margin at each side of the picture.
pub(crate) const MARGIN: u32 = 24;

/// The width past which a sequence is wrapped.
pub(crate) const LIST_WIDTH: u32 = 1000;

/// Returns the width of a number of columns of text: 8.4 each, saturating.
pub(crate) fn text_width(columns: u32) -> u32 {
    columns.saturating_mul(42) / 5
}

/// The style sheet. Its fonts are the system's monospaced ones, whose columns are about 8.4 wide.
pub(crate) const STYLE: &str = "\
text{font:14px ui-monospace,SF Mono,Menlo,Cascadia Mono,DejaVu Sans Mono,Liberation Mono,Consolas,monospace;fill:#1f2328}\
.word{fill:#57606a}.small{font-size:12px;fill:#57606a}.paper{fill:#fff}\
.line,.ring,.thread{fill:none;stroke:#6e7781;stroke-width:2}.thread{stroke-dasharray:2 2}.mark{fill:#6e7781}\
.box{stroke-width:1.5}.literal .box{fill:#dafbe1;stroke:#2da44e}.set .box{fill:#ddf4ff;stroke:#218bff}\
.position .box{fill:#fff8c5;stroke:#bf8700}.reference .box{fill:#fbefff;stroke:#a475f9}.never .box{fill:#ffebe9;stroke:#fa4549}\
.frame{fill:none;pointer-events:all;stroke:#8c959f;stroke-dasharray:5 3}.around{stroke:#bf8700}.without{stroke:#fa4549}\
@media (prefers-color-scheme:dark){text{fill:#e6edf3}.word,.small{fill:#9198a1}.paper{fill:#0d1117}\
.line,.ring,.thread{stroke:#9198a1}.mark{fill:#9198a1}\
.literal .box{fill:#12261e;stroke:#2ea043}.set .box{fill:#121d2f;stroke:#388bfd}.position .box{fill:#272115;stroke:#bb8009}\
.reference .box{fill:#1f1a2e;stroke:#8957e5}.never .box{fill:#2d1517;stroke:#da3633}\
.frame{stroke:#6e7681}.around{stroke:#bb8009}.without{stroke:#da3633}}";
