// What went wrong with the journal's file, and how it is told on standard error.
use input::says::{fail, say};
use std::io::{Error, Stderr};

// Why nothing can be played over a file.
#[derive(Clone, Copy)]
pub enum Refusal {
    NameNoText,
    NotOpened(Error),
    NotMade(Error),
    StreamClosed,
    TooLong,
    NotRead(Error),
    NoJournal,
    NotDurable(Error),
    FolderNotDurable(Error),
}

impl Refusal {
    // What is wrong and what to do. A line ends here where the system knows no reason.
    fn words(&self) -> &'static str {
        match self {
            Refusal::NameNoText => {
                ": its name is no UTF-8 text, and is not opened here. Give the file another name, or play it with the tool rossinhiu\n"
            }
            Refusal::NotOpened(_) => {
                ": it can't be opened to be read and written, and is as it was. Name a file, no folder, that you may write to"
            }
            Refusal::NotMade(_) => {
                ": it can't be made. Name a file in a folder that is there and that you may write to"
            }
            Refusal::StreamClosed => {
                ": standard input, output or error is closed, and answers would be written over it. Start with all three open\n"
            }
            Refusal::TooLong => {
                ": it is longer than 4194304 bytes, so it is no journal of this bench, and is as it was. Name another file\n"
            }
            Refusal::NotRead(_) => {
                ": it can't be read, and is as it was. Copy it to a sound disk and start with the copy"
            }
            Refusal::NoJournal => {
                ": it is no journal, since it begins as no opening does, and is as it was. Name another file\n"
            }
            Refusal::NotDurable(_) => {
                ": what it holds can't be made durable, and is as it was. Copy it to a sound disk and start with the copy"
            }
            Refusal::FolderNotDurable(_) => {
                ": its folder can't be made durable, so that its name could be lost. Name a file on a sound disk of this machine"
            }
        }
    }

    // The reason that the system gives.
    fn reason(&self) -> Option<Error> {
        match *self {
            Refusal::NotOpened(reason)
            | Refusal::NotMade(reason)
            | Refusal::NotRead(reason)
            | Refusal::NotDurable(reason)
            | Refusal::FolderNotDurable(reason) => Some(reason),
            Refusal::NameNoText | Refusal::StreamClosed | Refusal::TooLong | Refusal::NoJournal =>
                None,
        }
    }

    // A line on standard error: the file, what is wrong and what to do, and the reason that the system gives.
    pub fn tell(&self, errors: Stderr, path: &[u8]) {
        say(errors, b"bench: ");
        say(errors, path);
        let words = self.words().as_bytes();
        match self.reason() {
            Some(reason) => fail(errors, words, reason),
            None => say(errors, words),
        }
    }
}

// Why records are not durable in the file. Their request has no answer.
#[derive(Clone, Copy)]
pub enum Unkept {
    NotWritten(Error),
    PartWritten,
    NotDurable(Error),
    // Not within the journal, where they always lie.
    Outside,
}

impl Unkept {
    pub fn tell(&self, errors: Stderr) {
        match *self {
            Unkept::NotWritten(reason) => fail(
                errors,
                b"bench: a record can't be written to the journal's file. Its request has no answer. See that the disk has room, then start again",
                reason,
            ),
            Unkept::PartWritten => say(
                errors,
                b"bench: only a part of a record was written to the journal's file. Its request has no answer. Make room on the disk, then start again\n",
            ),
            Unkept::NotDurable(reason) => fail(
                errors,
                b"bench: a record can't be made durable in the journal's file. Its request has no answer. Copy the file to a sound disk, then start with the copy",
                reason,
            ),
            Unkept::Outside => {}
        }
    }
}
