// What the code and the definition both speak of: the operation, why a call is refused, what a unit is opened with and lent, and the limits. The rest of the
// definition stands in specs/.
#![tactic(auto)]

ghost use Rattle.std.specs.Prelude.{◌≡◌};
ghost use Rattle.definition.specs.Answers.{number};

// The four operations, by their numbers in a state: y, n (user sets), p (pretrained sets), c.
#[derive(Clone, Copy, Debug, PartialEq, Eq)]
pub enum Operation {
    Luma = 1,
    User = 2,
    Pretrained = 3,
    Chroma = 4,
}

// Why a call is refused, by the number in the table (docs/SCOPE.md, 'Refusals').
#[derive(Clone, Copy, Debug, PartialEq, Eq)]
pub enum Refusal {
    Width = 1,
    Height = 2,
    Stride = 3,
    Sampling = 4,
    // A sample or a place lies outside what is lent.
    Outside = 5,
    Left = 6,
    Top = 7,
    Bottom = 8,
    Masks = 9,
    Filters = 10,
    Luma = 11,
    Block = 12,
    State = 13,
    Card = 14,
    Plane = 15,
    Scratch = 16,
    Text = 17,
}

impl From<Refusal> for u8 {
    ghost from_gives = { λ r n. n ≡ number r };

    // `as` is how an enum gives its number.
    fn from(refusal: Refusal) -> u8 {
        refusal as u8
    }
}

// The numbers that a unit is opened with; what its operation does not use is 0.
#[repr(C)]
#[derive(Clone, Copy, Default)]
pub struct Given {
    pub w: usize,
    pub h: usize,
    pub edges: usize,
    pub stride: usize,
    pub luma_stride: usize,
    pub off: usize,
    pub top_off: usize,
    pub bottom_off: usize,
    pub luma_off: usize,
    pub luma_top_off: usize,
    pub luma_bottom_off: usize,
    pub ss_hor: usize,
    pub ss_ver: usize,
    pub kind: usize,
}

// All that a unit is lent besides the plane: of what its operation does not use the lists are empty, and the quantizer is 0.
#[derive(Clone, Copy)]
pub struct Lists<'a> {
    pub left: &'a [u8],
    pub top: &'a [u8],
    pub bottom: &'a [u8],
    // Filters are numbers of 8 bits, but the pretrained sets, which are of 16.
    pub filters: &'a [i8],
    pub wide: &'a [i16],
    pub map: &'a [u8],
    pub subclass: &'a [u8],
    pub noskip: &'a [u16],
    pub base_q: i32,
    pub luma: &'a [u8],
    pub luma_top: &'a [u8],
    pub luma_bottom: &'a [u8],
    pub skip: &'a [u16],
}

pub const NO_LISTS: Lists<'static> = Lists {
    left: &[],
    top: &[],
    bottom: &[],
    filters: &[],
    wide: &[],
    map: &[],
    subclass: &[],
    noskip: &[],
    base_q: 0,
    luma: &[],
    luma_top: &[],
    luma_bottom: &[],
    skip: &[],
};

// What the table of refusals asks of all that is lent: the lengths, and whether a class map is wrong.
#[derive(Clone, Copy)]
pub struct Sizes {
    pub plane: usize,
    pub left: usize,
    pub top: usize,
    pub bottom: usize,
    pub luma_plane: usize,
    pub luma_top: usize,
    pub luma_bottom: usize,
    pub skip: usize,
    pub noskip: usize,
    pub filters: usize,
    pub bad_map: bool,
}

// Samples to a block's side, and the largest sample at 8 bits.
pub const SIDE: usize = 4;

pub const SAMPLE_LIMIT: usize = 255;

// The sides of a unit and their blocks, the distance of two rows, and the entries of a class map.
pub const WIDTH_LIMIT: usize = 64;

pub const HEIGHT_LIMIT: usize = 64;

pub const BLOCK_COLUMN_LIMIT: usize = WIDTH_LIMIT / SIDE;

pub const BLOCK_ROW_LIMIT: usize = HEIGHT_LIMIT / SIDE;

pub const STRIDE_LIMIT: usize = 65536;

pub const MAP_SIZE: usize = 4096;

// The blocks to a number of a mask, a bit each.
pub const MASK_BITS: usize = 16;

// The sides of a plane that is restored whole, the side of its units, and the rows of scratch lent for it.
pub const PLANE_SIDE_LIMIT: usize = 1024;

pub const UNIT_SIZE_LIMIT: usize = 64;

pub const SCRATCH_ROWS: usize = 8;

// The last column of the noskip bits.
pub const LAST_COLUMN: usize = 15;

// How many patterns nine noskip bits have.
pub const PATTERN_COUNT: usize = 512;

// The row indices of a state, the bytes to a row and the byte of the unit's first sample, and the bytes of ten rows.
pub const INDEX_COUNT: usize = 10;

pub const ROW_BYTES: usize = 76;

pub const ROW_ORIGIN: usize = 6;

pub const ROWS_SIZE: usize = INDEX_COUNT * ROW_BYTES;

// A chroma unit's five luma rows, which stand behind its own five, and the bytes of a state.
pub const LUMA_ROW_BYTES: usize = 140;

pub const LUMA_ROWS_AT: usize = 5 * ROW_BYTES;

pub const STATE_BYTES: usize = LUMA_ROWS_AT + 5 * LUMA_ROW_BYTES;

// So many bytes are enough for the text of any state (`text_limit` in specs/StateText.antt).
pub const STATE_TEXT_LIMIT: usize = 2887;
