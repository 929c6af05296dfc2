//! Why there is no preview, by the phase in which it stopped.

ghost use Rattle.std.specs.Prelude.{◌≡◌};
ghost use Rattle.view_preview.specs.Faults.{of_file, of_output, of_reading, of_text};
ghost use Rattle.view_preview.specs.Sources.{of_input, of_sources};
ghost use Rattle.view_preview.specs.declared.fault.PreviewFault.TheVariants as faults;
ghost use Rattle.view_preview.specs.declared.fault.SourcesFault.TheVariants as refusals;

use desk_memory::NoMemory;
use feed_edit::FeedTrouble;
use feed_files::{FileRefusal, Kind, OutputFault};
use feed_stored::Unsent;
use script_answers::{Failure, Refusal};
use text_copy::TextFault;
use thiserror::Error;
use view_proof::OtherNumber;

// ---- the phases

/// Why the stored feed or the text, the case and the wedge that are read for a preview give nothing.
#[derive(Clone, Copy, Debug, PartialEq, Eq)]
pub enum SourcesFault {
    /// The stored feed is not opened, or the file of the text is not read.
    Feed(FeedTrouble),
    /// The text has more than 8,388,608 bytes, or more than 1,048,576 symbols.
    TooLong,
    /// The text is no copy: its first fault. Out of memory is `NoMemory`.
    Text(TextFault),
    /// The case or the wedge is not read, or is refused.
    Input(Refusal),
    NoMemory,
}

// ---- the calls

/// Why a stored feed or a text is not punched, proofed or drawn, by the phase in which it stopped.
#[derive(Clone, Copy, Debug, PartialEq, Eq, Error)]
pub enum PreviewFault {
    /// The stored feed is not opened, or the file of the text that is to be set is not read.
    #[error("{0}")]
    Feed(FeedTrouble),
    /// The text that is to be set has more than 8,388,608 bytes, or more than 1,048,576 symbols; or the ribbon of
    /// several feeds has more than 67,108,864 bytes.
    #[error("too long")]
    TooLong,
    /// The case or the wedge is not read, or is refused.
    #[error("input refused")]
    Input(Refusal),
    /// The copy has faults, and these were written.
    #[error("copy faults")]
    CopyFaults,
    /// The job has faults, and these were written. Where one is that the number of the case or of the wedge is another,
    /// both numbers are here.
    #[error("no ribbon")]
    Faulty(Option<OtherNumber>),
    /// The writer failed, or took no byte.
    #[error("write fault")]
    Write,
    /// The ribbon, picture or document was made, and a file of this kind stands under the target, which is left.
    #[error("not replaced")]
    Taken(Kind),
    /// The ribbon, picture or document was made, and not stored, or what stands under the target was not read.
    #[error("file fault")]
    Unstored(FileRefusal),
    /// The text that is to be set, or looked for, is no copy: its first fault. Out of memory is `NoMemory`.
    #[error("{0}")]
    Text(TextFault),
    #[error("no memory")]
    NoMemory,
}

// ---- what the cause of a phase is

impl From<FeedTrouble> for SourcesFault {
    ghost from_gives = { λ why fault. fault ≡ refusals.Feed why };

    fn from(why: FeedTrouble) -> SourcesFault {
        SourcesFault::Feed(why)
    }
}

impl From<NoMemory> for SourcesFault {
    ghost from_gives = { λ _ fault. fault ≡ refusals.NoMemory };

    fn from(_: NoMemory) -> SourcesFault {
        SourcesFault::NoMemory
    }
}

impl From<FileRefusal> for SourcesFault {
    ghost from_gives = { λ why fault. fault ≡ of_file why };

    fn from(why: FileRefusal) -> SourcesFault {
        SourcesFault::Feed(FeedTrouble::File(why))
    }
}

impl From<TextFault> for SourcesFault {
    ghost from_gives = { λ why fault. fault ≡ of_reading why };

    fn from(why: TextFault) -> SourcesFault {
        match why {
            TextFault::At { .. } => SourcesFault::Text(why),
            TextFault::NoMemory => SourcesFault::NoMemory,
        }
    }
}

impl From<Failure> for SourcesFault {
    ghost from_gives = { λ end fault. fault ≡ of_input end };

    fn from(end: Failure) -> SourcesFault {
        match end {
            Failure::Refused(why) => SourcesFault::Input(why),
            Failure::NoMemory => SourcesFault::NoMemory,
        }
    }
}

// ---- what the phase of a call is

impl From<SourcesFault> for PreviewFault {
    ghost from_gives = { λ why fault. fault ≡ of_sources why };

    fn from(why: SourcesFault) -> PreviewFault {
        match why {
            SourcesFault::Feed(why) => PreviewFault::Feed(why),
            SourcesFault::TooLong => PreviewFault::TooLong,
            SourcesFault::Text(why) => PreviewFault::Text(why),
            SourcesFault::Input(why) => PreviewFault::Input(why),
            SourcesFault::NoMemory => PreviewFault::NoMemory,
        }
    }
}

impl From<NoMemory> for PreviewFault {
    ghost from_gives = { λ _ fault. fault ≡ faults.NoMemory };

    fn from(_: NoMemory) -> PreviewFault {
        PreviewFault::NoMemory
    }
}

impl From<Unsent> for PreviewFault {
    ghost from_gives = { λ _ fault. fault ≡ faults.Write };

    fn from(_: Unsent) -> PreviewFault {
        PreviewFault::Write
    }
}

impl From<TextFault> for PreviewFault {
    ghost from_gives = { λ why fault. fault ≡ of_text why };

    fn from(why: TextFault) -> PreviewFault {
        match why {
            TextFault::At { .. } => PreviewFault::Text(why),
            TextFault::NoMemory => PreviewFault::NoMemory,
        }
    }
}

/// A file that is not stored: one that is not read is the trouble of a feed, or a refused input.
impl From<OutputFault> for PreviewFault {
    ghost from_gives = { λ why fault. fault ≡ of_output why };

    fn from(why: OutputFault) -> PreviewFault {
        match why {
            OutputFault::Taken(kind) => PreviewFault::Taken(kind),
            OutputFault::File(why) => PreviewFault::Unstored(why),
        }
    }
}
