//! What help says behind the arguments: of the program, and of each subcommand.

pub(crate) const PIT_NOTES: &str = "\
Blocks, periods and resources are numbered from 0. The model's discount rate is a fraction: 0.1 is
10 % a period. A section of the model whose name is misspelt may be skipped with its lines, as `info`
shows. A SCHEDULE is a solution, or a history that `plan --history` wrote.
docs/FORMATS.md has every form and fault line.

Status: 0 where all is well, 1 where a breach, a shortfall, a difference or `illegal` was printed, or
a refusal with `plan --strict` or of an edit, 2 where an input or the command line is refused, 3 where memory, a
device or a thread is wanting, another program writes the history, or a planner stopped. Of 2 and 3
standard error says why.";

pub(crate) const VALUE_NOTES: &str = "\
Prints the sum of the profits, each times the factor of its period, with 18 digits. Blocks and
periods are numbered from 0; a DESTINATION is 0, and a PART is 0 or 1. docs/FORMATS.md has every
form and fault line.

Status: 0 where it printed, 2 where an input or the command line is refused, 3 where memory or a
device is wanting. Of 2 and 3 a line on standard error says why.

Example:
  pit value tiny.cpit tiny.sol";

pub(crate) const CHECK_NOTES: &str = "\
Prints `value V`; then the first breach, if there is one: `precedence BLOCK PREDECESSOR`, or else
`over RESOURCE PERIOD LOAD LIMIT`; then `short RESOURCE PERIOD LOAD LIMIT` for each load below its
lower limit; and `fine` where there was neither. Blocks, periods and resources are numbered from 0;
a DESTINATION is 0, and a PART is 0 or 1. docs/FORMATS.md has every form and fault line.

With --all it prints each pair that is out of order, with the period of the block and that of its
predecessor (`precedence BLOCK PREDECESSOR T S`, the first 1,000 and then `more N`), and each load
over its limit; and last, where it isn't `fine`, `broken N over N short N`. The limits of a history
are those that it revised.

Status: 0 where it printed `fine`, 1 where it printed a breach or a shortfall, 2 where an input or
the command line is refused, 3 where memory or a device is wanting. Of 2 and 3 a line on standard
error says why.

Examples:
  pit check tiny.cpit tiny.prec tiny.sol
  pit check --all tiny.cpit tiny.prec tiny.history";

pub(crate) const PLAN_NOTES: &str = "\
Each planner does the jobs of its script in a thread of its own, all on one schedule; with --in-turn
one thread does them, planner after planner. A job is lines between `begin` and `commit` or `abort`:
  read B      reads block B             put B T     puts block B into period T
  clear B     takes block B out         shift B D   moves block B by D periods, or aborts the job
  bench Z T   puts each block at height Z into period T
  expect B T  reads block B, and aborts the job where it isn't in period T; `-` for T is no period
  cone B T    brings block B to period T, unless it is there or earlier, with what stands in its way
  push B T    puts block B off to period T, where it is in an earlier one, with what depends on it
  revise R T V  limits resource R in period T to at most V; `inf` is no limit
A job is committed as a whole, where it read what the schedule then held and breaks no precedence
and no upper limit; else it is refused, and one that met a change of another planner is repeated.
Standard output is the solution that is left. Standard error tells of each job, the value, and
`short RESOURCE PERIOD LOAD LIMIT` for each load below its lower limit. Behind them the history
is written, if a file is named for it. Blocks, periods and resources are numbered from 0, planners
and jobs from 1. docs/FORMATS.md has every form.

A history that the schedule begins with is audited, and the new entries follow its own. With
--continue the history's file gets them all before anything is printed; where there is no such file
it is made, and the report begins with `history new`. Neither --start nor --history stands beside it.

Status: 0 where all is well, 1 where a load falls short, or a job was refused with --strict, 2 where
an input or the command line is refused, 3 where memory, a device or a thread is wanting, another
program writes the history, or a planner stopped.

Examples:
  pit plan tiny.cpit tiny.prec --blocks tiny.blocks one.script two.script
  pit plan tiny.cpit tiny.prec --continue tiny.history --in-turn --strict one.script";

pub(crate) const REPLAY_NOTES: &str = "\
Goes over a history that `plan` wrote, entry by entry, from an empty schedule. Prints
`legal ENTRIES COMMITS` and `value V` where each entry has the reply that was due; or else
`illegal PLACE`, the place of the first that hasn't, counted from 1, the format's line not among
them. docs/FORMATS.md has every form and fault line.

Status: 0 where it printed `legal`, 1 where it printed `illegal`, 2 where an input or the command
line is refused, 3 where memory or a device is wanting. Of 2 and 3 a line on standard error says why.

Example:
  pit replay tiny.cpit tiny.prec tiny.history";

pub(crate) const TABLE_NOTES: &str = "\
Prints a row of comma-separated cells for each period, behind a row of names:
`period,blocks,value,cumulative`, and of each resource R `load_R,lower_R,upper_R,room_R`. That is how
many blocks the period has, what they earn, what all earn up to there, and each load with its
greatest lower limit, its upper limit in force, and how much that leaves. A cell is empty where there
is no such limit. The limits of a history are those that it revised. docs/FORMATS.md has every form
and fault line.

Status: 0 where it printed, 2 where an input or the command line is refused, 3 where memory or a
device is wanting. Of 2 and 3 a line on standard error says why.

Example:
  pit table tiny.cpit tiny.sol";

pub(crate) const DIFF_NOTES: &str = "\
Prints what differs from the schedule OLD to the schedule NEW: `block N OLD NEW` for each block
whose period differs; `moves OLD NEW N` for how many went from one period to another;
`limit R T OLD NEW` for each upper limit in force that differs; `load R T OLD NEW` for each load that
differs; and `value OLD NEW`. A period or a limit that isn't there is `-`. docs/FORMATS.md has every
form and fault line.

Status: 0 where nothing differs, 1 where it printed a line, 2 where an input or the command line is
refused, 3 where memory or a device is wanting. Of 2 and 3 a line on standard error says why.

Example:
  pit diff tiny.cpit tiny.sol new.sol";

pub(crate) const INFO_NOTES: &str = "\
Prints what there is in the files of a pit, a line each: how many blocks, periods and resources, the
rate, how many profits, coefficients and limits, how many pairs of a block and its predecessor, how
many blocks have none, and the highest that has one; with --blocks places and benches too. Then
`unlimited R` for each resource without an upper limit, `unmeetable R T` for the first upper limit
below zero, and `unknown FIRST LAST KEY` for lines of the model's header whose keys nothing reads: so
a section whose name is misspelt is seen. docs/FORMATS.md has every form and fault line.

Status: 0 where it printed, 2 where an input or the command line is refused, 3 where memory or a
device is wanting. Of 2 and 3 a line on standard error says why.

Example:
  pit info tiny.cpit tiny.prec --blocks tiny.blocks";

pub(crate) const SHOW_NOTES: &str = "\
Prints a schedule as a solution, `BLOCK PERIOD` for each mined block. Of a history a comment stands
before it, `% commits N sum S`: the number of commits, and the SHA-256 of the entries up to the last
of them. With --at the schedule is the one after the first N commits.
docs/FORMATS.md has every form and fault line.

Status: 0 where it printed, 2 where an input or the command line is refused or there are fewer
commits, 3 where memory or a device is wanting. Of 2 and 3 a line on standard error says why.

Example:
  pit show tiny.cpit tiny.history --at 1";

pub(crate) const LOG_NOTES: &str = "\
Prints a line for each entry of a history that `plan` wrote, in its order, counted from 1:
  entry E planner K job J start N reads N writes N revises N cause C REPLY
REPLY is `committed N`, `withdrawn`, or `refused` and why. C is the entry that last wrote the block by
which a job was refused, or `-`. With --writes a committed entry is followed by `write B OLD NEW` for
each block that it wrote, and `revise R T OLD NEW` for each limit that it revised; a period or a limit
that isn't there is `-`. The two lines of `replay` come last. Of a history that isn't legal, the
entries before the first wrong one are printed, and then `illegal PLACE`.
docs/FORMATS.md has every form and fault line.

Status: 0 where it printed `legal`, 1 where it printed `illegal`, 2 where an input or the command
line is refused, 3 where memory or a device is wanting. Of 2 and 3 a line on standard error says why.

Example:
  pit log --writes tiny.cpit tiny.prec tiny.history";

pub(crate) const MERGE_NOTES: &str = "\
Takes each EDIT as one transaction of the planner of its number, in their order: it read what its
base has of the blocks that it changes, and writes what it wants. The base is what the first commits
of the schedule that the merge begins with leave. Of a history these are the commits among the
entries that both begin with; of a solution whose first line `show` wrote, those that this line
names; of another solution those of --from, or all where no history was begun with.
An edit is committed as a whole, where nobody else has changed a block that it changes, and the
merged schedule breaks no precedence and no upper limit; else it is refused. With --partial the
blocks that somebody else has changed are left out.

Standard output is the solution that is left. Standard error tells of each edit:
  edit K entry E changes N left N cause C REPLY
and of each block that was left out, or that it was refused for:
  conflict K B base P now P entry E wanted P
Then the value, and `short RESOURCE PERIOD LOAD LIMIT` for each load below its lower limit. What is
begun with, and where the history is written, is as for `plan`. docs/FORMATS.md has every form.

Status: 0 where each edit is merged whole, 1 where one was refused or a part of one left out, 2 where
an input or the command line is refused, 3 where memory or a device is wanting, or another program
writes the history. Of 2 and 3 a line on standard error says why.

Example:
  pit merge tiny.cpit tiny.prec --continue tiny.history one.sol two.sol";

pub(crate) const LIVE_NOTES: &str = "\
Keeps one schedule open. Each planner asks, a request a line, and gets one line for each at once:
  begin       begins a transaction       `begun J N`: the J-th, after N commits
  read B      reads block B              `held B T`, `-` for no period; `moved B N`, where commit N has
                                         changed it since; or `busy`: ask again
  put B T     puts block B into period T `ok`
  clear B     takes block B out          `ok`
  commit      commits the transaction    `committed N`; `refused` and why
  abandon     gives it up                `abandoned`
  value       of the schedule            `value N V`: after N commits
A line that is none of these is answered `fault` and why, and changes nothing. What is told as
committed or refused is in the history on the disk by then; behind `unsaved` it may not be.
Nothing is retried. IN is opened first, then OUT; a transaction that is open where IN ends is given up.

The history is audited and then written anew, with each new entry behind it; half a line that a crash
has left at its end is left out. Standard error tells of it, and in the end of each planner, the
value, and `short RESOURCE PERIOD LOAD LIMIT` for each load below its lower limit. `plan` and `merge`
can't write the history meanwhile. docs/FORMATS.md has every form.

Status: 0 where all is well, 1 where a load falls short, 2 where an input or the command line is
refused, 3 where memory, a device or a thread is wanting, another program writes the history, or a
planner's requests end by a fault. Of 2 and 3 standard error says why.

Example:
  pit live tiny.cpit tiny.prec --continue tiny.history one.in:one.out two.in:two.out";
