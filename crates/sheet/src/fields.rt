// Sections by number, and the positions of a record's words (document 01, "The sheet", sections 1 to 7). They are numbers as in the document
// and in the definitions: every read holds for every number, of a section or not, and an enum would ask more of callers.
pub const PROGRAMMES: u8 = 1;

pub const CONTENTS: u8 = 2;

pub const OBJECTS: u8 = 3;

pub const PACKS: u8 = 4;

pub const TRACKS: u8 = 5;

pub const REFERENCES: u8 = 6;

pub const VALUE_SETS: u8 = 7;

pub const PROGRAMME_LANGUAGE: u8 = 0;

pub const CONTENT_LIST: u8 = 1;

pub const SET_LIST: u8 = 3;

pub const PROGRAMME_LABELS: u8 = 5;

pub const PROGRAMME_LOUDNESS: u8 = 7;

pub const CONTENT_LANGUAGE: u8 = 0;

pub const CONTENT_OBJECT: u8 = 1;

pub const CONTENT_LABELS: u8 = 2;

pub const CONTENT_LOUDNESS: u8 = 4;

pub const OBJECT_PACK: u8 = 0;

// "pack (65535 = none)": the word of the sheet.
pub const NO_PACK: u16 = 65535;

pub const TRACK_LIST: u8 = 1;

pub const CHILD_LIST: u8 = 3;

pub const COMPLEMENT_LIST: u8 = 5;

pub const INTERACT: u8 = 7;

pub const OBJECT_GAIN: u8 = 8;

pub const OBJECT_GAIN_MINIMUM: u8 = 9;

pub const OBJECT_GAIN_MAXIMUM: u8 = 10;

pub const OBJECT_OFFSET: u8 = 11;

pub const OBJECT_OFFSET_MINIMUM: u8 = 12;

pub const OBJECT_OFFSET_MAXIMUM: u8 = 13;

pub const SET_SPAN: u8 = 14;

pub const PACK_KIND: u8 = 0;

// "kind (1 DirectSpeakers, 3 Objects)": a kind is a word of the sheet and may be any number, which rule 6 refuses.
pub const KIND_DIRECT_SPEAKERS: u16 = 1;

pub const KIND_OBJECTS: u16 = 3;

pub const PACK_CHANNELS: u8 = 1;

pub const PACK_FRONT: u8 = 2;

pub const TRACK_PACK: u8 = 0;

pub const TRACK_ORDINAL: u8 = 1;

pub const SET_GAIN: u8 = 0;

pub const SET_OWN: u8 = 1;

pub const SET_GAIN_MINIMUM: u8 = 2;

pub const SET_GAIN_MAXIMUM: u8 = 3;

pub const SET_OFFSET: u8 = 4;

pub const SET_OFFSET_MINIMUM: u8 = 5;

pub const SET_OFFSET_MAXIMUM: u8 = 6;
