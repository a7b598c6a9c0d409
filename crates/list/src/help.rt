// What a person reads who lists a journal.
use input::says::say;
use std::io::{Stderr, Stdout};

pub fn print(out: Stdout) {
    say(
        out,
        b"list writes a journal's records, one to a line, from standard input.\n\n",
    );
    say(out, b"  list < FILE    the listing\n");
    say(out, b"  list --help    this page\n\n");
    say(out, b"Lines, NUMBER being the record's:\n");
    say(out, b"  NUMBER open CLIENT             an opening\n");
    say(
        out,
        b"  NUMBER KIND RANK BANK CYCLE    a command: ACT RD WR PREPB PREAB REFAB REFPB\n",
    );
    say(out, b"  NUMBER back                    a take-back\n");
    say(
        out,
        b"  end RECORDS BYTES              the whole records, and the bytes left over: a restore answers 0\n",
    );
    say(
        out,
        b"  bad NUMBER                     the listing ends at this record: a restore answers 11\n",
    );
    say(
        out,
        b"A journal holds at most 16777216 records; a restore answers a longer one with 9, and its listing ends at its first bad record, or with bad 16777216.\n",
    );
}

pub fn expected(errors: Stderr) {
    say(
        errors,
        b"list: expected no argument, or --help; the journal comes on standard input: list < FILE\n",
    );
}
