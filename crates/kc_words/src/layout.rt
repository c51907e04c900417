//! How wide the fields of the words are, and the limits that follow from it.
//!
//! Each width and each limit has a name of its own, also where two of them are one number.

/// Bits of the version in an item's or a group's word.
pub const VERSION_BITS: u32 = 26;

/// Bits of the group in an item's word.
pub const GROUP_BITS: u32 = 26;

/// Bits of the bottom label in an item's word.
pub const BOTTOM_BITS: u32 = 12;

/// Bits of the top label in a group's word.
pub const TOP_BITS: u32 = 38;

/// Bits of the stamp in a vertex's word.
pub const STAMP_BITS: u32 = 32;

/// Bits of the core number in a vertex's word.
pub const CORE_BITS: u32 = 32;

/// Bits of an update's index in the word that stands before an entry's note.
pub const INDEX_BITS: u32 = 32;

/// Bits of a vertex in a note.
pub const VERTEX_BITS: u32 = 30;

/// Bits of an item in a note.
pub const ITEM_BITS: u32 = 31;

/// The place of the two bits that say which note it is.
pub const KIND_SHIFT: u32 = 62;

/// The place of the bit that says whether a note's edge is added.
pub const ADD_SHIFT: u32 = 61;

/// The last version that an item's or a group's word can have: one less than 2 to the power of `VERSION_BITS`.
pub const LAST_VERSION: u32 = 67_108_863;

/// The most items that a list may have: a vertex each, and a head for each level that they may have. There is one more group than
/// items, numbered from 1.
pub const ITEMS: u32 = 33_554_433;

/// The most vertices that a graph may have. A vertex's number is below it. A fresh table has the three versions that a put may take for
/// each of them, so that each update can be entered there.
pub const VERTICES: u32 = 16_777_216;

/// The most indices of updates. The index of an update is below it. Entries are numbered from 1, so no number of one is the last that
/// its bits allow either.
pub const INDICES: u32 = 4_294_967_294;

/// The bottom labels of a group are above 0 and below this.
pub const BOTTOM_ROOM: u64 = 4_096;

/// The top labels of groups are above 0 and below this.
pub const TOP_ROOM: u64 = 274_877_906_944;
