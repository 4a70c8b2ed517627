// Where programmes and contents have their words of speech.
use sheet::fields::{
    CONTENT_LABELS, CONTENT_LANGUAGE, CONTENT_LOUDNESS, PROGRAMME_LABELS, PROGRAMME_LANGUAGE,
    PROGRAMME_LOUDNESS,
};

// Where a record has its language, its labels and its loudness.
#[derive(Clone, Copy)]
pub struct SpeechPositions {
    pub language: u8,
    pub labels: u8,
    pub loudness: u8,
}

pub const PROGRAMME_SPEECH: SpeechPositions = SpeechPositions {
    language: PROGRAMME_LANGUAGE,
    labels: PROGRAMME_LABELS,
    loudness: PROGRAMME_LOUDNESS,
};

pub const CONTENT_SPEECH: SpeechPositions = SpeechPositions {
    language: CONTENT_LANGUAGE,
    labels: CONTENT_LABELS,
    loudness: CONTENT_LOUDNESS,
};
