// What a person at the bench reads.
use input::says::say;
use std::io::{Stderr, Stdout};

fn print_uses(out: Stdout) {
    say(
        out,
        b"bench plays a trace, one request to a line, from standard input, and prints one answer to each.

  bench          the journal is memory, gone at the end
  bench FILE     the journal is kept in FILE; the first line printed is what FILE restores
  bench --help   this page

",
    );
}

fn print_requests(out: Stdout) {
    say(
        out,
        b"Requests, and what is printed:
  open RATIO RANKS MODE CLIENT G1 .. G20   open N
  offer KIND RANK BANK CYCLE               offer N CYCLE GAP LOSS
  burst KIND RANK BANK CYCLE ..            burst COUNT N CYCLE GAP LOSS
  ask KIND RANK BANK                       ask N CYCLE GAP LOSS
  back                                     back N
  status                                   status N CLIENT OPENING SURVIVORS DEPTH LAST RECORDS
  stretch                                  stretch LENGTH HEX
  lend BYTES                               lend BYTES
  bytes FROM COUNT                         bytes HEX
  gaps TCK T1 .. T20                       gaps N GAP G1 .. G20
  restore BYTES                            restore N AT     (in memory only)
  poke AT BYTE                             poke AT BYTE     (in memory only)
",
    );
}

fn print_words(out: Stdout) {
    say(
        out,
        b"RATIO is 1, 2 or 4; RANKS 1 or 2; MODE 0 (16-bank) or 2 (four groups of four); G1 to G20 are the gaps in DRAM cycles.
KIND is ACT RD WR PREPB PREAB REFAB REFPB, or 1 to 7 in this order. CYCLE is in controller cycles.
LOSS is in DRAM cycles: what GAP loses to rounding, 0 to RATIO - 1, and 0 where GAP is 0.
A burst is any number of offers in one line: COUNT were accepted, then comes the first refusal, or zeros. What comes behind it is not
looked at.
TCK and T1 to T20 are a data sheet's times in picoseconds, T1 that of gap 1; what is told are the gaps of an opening.
A line that is empty or begins with # asks nothing. Any other line prints ? and changes nothing.

",
    );
}

fn print_numbers(out: Stdout) {
    say(
        out,
        b"N, the answer's number:
   0 accepted
   1 no session open
   2 command kind not 1 to 7
   3 rank not below the session's ranks
   4 bank above 15, or not 0 with PREAB or REFAB
   5 cycle above 1099511627775
   6 cycle not later than the last survivor's
   7 too early: CYCLE is the earliest, GAP the gap that asks for it
   8 depth is 0: nothing left to take back
   9 no room for a record
  10 ratio not 1, 2, 4; ranks not 1, 2; mode not 0, 2
  11 bad record in a restore: AT is its number
  12 wrong bank state: ACT REFPB need the bank closed, RD WR open, REFAB all of the rank closed
  13 TCK not 1 to 1000000
  14 a time above 4294967295, or a gap above 65535: GAP is the lowest such

",
    );
}

fn print_gaps(out: Stdout) {
    say(
        out,
        b"GAP: 1 tRC  2 tRRD  3 tRCD  4 tRAS  5 tCCD  6 tCCD_L  7 tCCD_S  8 tRDWR  9 tRTP  10 tWRRD  11 tWRRD_L
     12 tWRRD_S  13 tWRPRE  14 tRPpb  15 tRPab  16 tPPD  17 tRFCab  18 tRFCpb  19 tPBR2PBR  20 tFAW  0 none
",
    );
}

pub fn print(out: Stdout) {
    print_uses(out);
    print_requests(out);
    print_words(out);
    print_numbers(out);
    print_gaps(out);
}

// More than one argument, or one that is longer than a file's name can be.
pub fn expected(errors: Stderr) {
    say(
        errors,
        b"bench: expected no argument, one FILE to keep the journal in, or --help\n",
    );
}
