//! The layout of a region, and the limits of a machine. Offsets, lengths and sizes are in bytes.

/// The cell with the address of the end of the dictionary.
pub const DP: u32 = 0;
/// The cell with the number base.
pub const BASE: u32 = 8;
/// The cell that isn't 0 while the interpreter compiles.
pub const STATE: u32 = 16;
/// The cell with the place in the source where parsing goes on.
pub const TO_IN: u32 = 24;
/// The cells with the address, the length and the number of the source; the number is -1 in `EVALUATE`.
pub const SOURCE_ADDRESS: u32 = 32;

pub const SOURCE_LENGTH: u32 = 40;

pub const SOURCE_NUMBER: u32 = 48;
/// The cell with the wordlist that takes new words.
pub const CURRENT: u32 = 56;
/// The cell with the newest header.
pub const LATEST: u32 = 64;
/// The cell with the chain of the exits of a loop; 1 means no loop.
pub const LEAVES: u32 = 72;
/// The cell with the address of the last character of a number that is being formatted.
pub const HLD: u32 = 88;
/// The cell with the token of the entry word.
pub const ENTRY: u32 = 96;
/// The cell with the number of wordlists in the search order, and the cells of the order, the first searched first.
pub const ORDER_COUNT: u32 = 104;

pub const ORDER: u32 = 112;
/// The wordlist of the kernel: its head, and the link to an older wordlist.
pub const FORTH_WORDLIST: u32 = 240;
/// The cell with the newest wordlist.
pub const VOC: u32 = 256;
/// The three cells of the interpreter's loop.
pub const INTERPRETER_LOOP: u32 = 264;
/// The cell with the token of `BYE`, which runs after the entry word.
pub const BYE_AFTER_ENTRY: u32 = 288;
/// The cell that tells which string buffer is next: 0 the first, 1 the second.
pub const STRING_TURN: u32 = 296;
/// The buffer of a line.
pub const LINE_BUFFER: u32 = 512;
/// The scratch buffer of a program.
pub const PAD: u32 = 1536;
/// Where the buffer of a formatted number begins and ends; it fills from its end.
pub const HOLD_BUFFER: u32 = 1792;

pub const HOLD_END: u32 = 2048;
/// The buffer of `WORD`.
pub const WORD_BUFFER: u32 = 2048;
/// The two buffers of interpreted strings.
pub const STRING_BUFFER_FIRST: u32 = 2304;

pub const STRING_BUFFER_SECOND: u32 = 2816;
/// Where the dictionary begins: the headers of the tags, one after another.
pub const DICTIONARY: u32 = 4096;
/// Where the first header of a program stands.
pub const USER_DICTIONARY: u32 = 32768;

/// The fields of a header, from its address on: the link, the flags, the name, the code field (whose address is the
/// execution token), the second cell, and the body.
pub const LINK: u32 = 0;

pub const FLAGS: u32 = 8;

pub const NAME: u32 = 16;

pub const CODE: u32 = 48;

pub const SECOND: u32 = 56;

pub const BODY: u32 = 64;
/// The size of a header, and of one entry of the code table.
pub const HEADER_SIZE: u32 = 64;

pub const CODE_SIZE: u32 = 16;

/// The flags of a header, which are added to the length of the name.
pub const IMMEDIATE: u64 = 256;

pub const COMPILE_ONLY: u64 = 512;

pub const HIDDEN: u64 = 1024;

/// How many tags there are.
pub const TAGS: u8 = 120;
/// The most bytes of a line, and of a name.
pub const LINE_LIMIT: u32 = 1020;

pub const NAME_LIMIT: u32 = 31;
/// The most wordlists of a search order, and the most cells of a stack.
pub const ORDER_LIMIT: u32 = 16;

pub const STACK_LIMIT: u32 = 4096;
/// The most bytes of an interpreted string, of a parsed word and of a formatted number.
pub const STRING_LIMIT: u32 = 512;

pub const WORD_LIMIT: u32 = 255;

pub const HOLD_LIMIT: u32 = 256;
/// The most sources of a build, and the most bytes of a source.
pub const SOURCE_COUNT_LIMIT: u32 = 64;

pub const SOURCE_LIMIT: u32 = 4194304;
/// The size of a region where none is given, and the greatest.
pub const DEFAULT_SIZE: u32 = 1048576;

pub const SIZE_LIMIT: u32 = 8388608;
/// The most bytes of the input of a run.
pub const INPUT_LIMIT: u32 = 1073741824;
/// The turns of a build where no number is given, the most, and the most of the prelude.
pub const DEFAULT_TURNS: u64 = 20000000;

pub const TURN_LIMIT: u64 = 1099511627776;

pub const PRELUDE_TURNS: u64 = 1000000;
