//! The version, and the ends of the help texts: the form of the input, an example, the exit statuses.

/// The version, and the toolchain by which it was proved, as `rt version` names it.
pub const VERSION: &str = "0.1.0 (rattle-kit-13f logic dac8208d650f15bf)";

/// Of the whole program.
pub const WHOLE: &str = "Each command has its help: fj replay --help

Example:
  $ printf 'async 1 1 8 64\\nsubmit 0\\npoll 0 0\\nend 0 ok\\n' | fj replay
  task 0
  run 0
  done
  $ fj sum --from 1 --to 100000 --grain 1000 --workers 4
  5000050000

Exit status:
  0  the command was run to its end, or help or the version was written
  1  fj check, fj view: a line of the history may not stand there
     fj test: a line of the script has another reply
  2  a fault of the command line
  3  a fault of the input, told by its line, or a refusal, told by its number
  4  out of memory
  5  a read or a write failed";

/// Of `fj replay`.
pub const REPLAY: &str = "Input of fj replay: a script, which is a heading and then one step a line
  async WORKERS SUBMITTERS TASKS EVENTS    or joining; at least 1 of each, at
                                           most 32, 32, 4096 and 1048576
  submit 0      poll 0 0      end 0 ok     among other steps, one reply each
With fj 2 as its first line, before the heading, tasks go by names.
Faulty: an empty line, a comment, a trailing space, CR LF, no last line feed.

A step that cannot be made has the reply refused N, and the script goes on:
   1  a shutdown or stop came before     7  to join: it is on the own stack
   2  TASKS tasks are kept already       8  not for a task of this kind
   3  the history of EVENTS is full      9  to release: not gone, or a parent
   4  no such worker or submitter       10  a pending count above 65535
   5  no such task, or it is released   14  the worker, or pool, is not idle
   6  the worker has no task, or hook   16  the name belongs to a task
docs/SCRIPT.md says of each when it comes and what to do.

Example:
  $ printf 'async 1 1 8 64\\nsubmit 0\\npoll 0 0\\nend 0 ok\\n' | fj replay
  task 0
  run 0
  done

Exit status:
  0  the whole script was replied to, also with refused steps, or help written
  2  a fault of the command line
  3  fault: line N, the first faulty line; or refused 13, a limit out of range
  4  out of memory
  5  a read or a write failed";

/// Of `fj upgrade`.
pub const UPGRADE: &str =
    "Input of fj upgrade: a script as that of fj replay, without fj 2 as its first
line. Task number T becomes tT.

Example:
  $ printf 'async 1 1 8 64\\nsubmit 0\\npoll 0 0\\nend 0 ok\\n' | fj upgrade
  fj 2
  async 1 1 8 64
  submit t0 0
  poll 0 0
  end 0 ok

Exit status:
  0  the whole script was written, or help was
  2  a fault of the command line
  3  fault: line N, the first faulty line; or refused 13, a limit out of range
  4  out of memory
  5  a read or a write failed";

/// Of `fj sum`.
pub const SUM: &str = "It reads no input. At most 200000 blocks: a larger --grain gives fewer.

Example:
  $ fj sum --from 1 --to 100000 --grain 1000 --workers 4
  5000050000

Exit status:
  0  the sum was written
  2  a fault of the command line, or too many blocks
  3  the pool's history is full
  4  out of memory, or a thread could not be started
  5  a write failed";

/// Of `fj min`.
pub const MIN: &str = "At x the function is (MUL * x + ADD) mod MOD. What is written is its least
value, and the smallest x that has it.
It reads no input. At most 200000 blocks: a larger --grain gives fewer.

Example:
  $ fj min --from 0 --to 9 --mul 7 --add 3 --mod 10
  0 1

Exit status:
  0  the value and its number were written, or none for an empty range
  2  a fault of the command line, or too many blocks
  3  the pool's history is full
  4  out of memory, or a thread could not be started
  5  a write failed";

/// Of `fj find`.
pub const FIND: &str =
    "At x the function is (MUL * x + ADD) mod MOD. Blocks behind an x that has the
value are not begun once it is found; with --eager all blocks are computed.
It reads no input. At most 200000 blocks: a larger --grain gives fewer.

Example:
  $ fj find --from 0 --to 9 --mul 7 --add 3 --mod 10 --want 9
  8

Exit status:
  0  the number was written, or none where no number has the value
  2  a fault of the command line, or too many blocks
  3  the pool's history is full
  4  out of memory, or a thread could not be started
  5  a write failed";

/// Of `fj tree`.
pub const TREE: &str = "Input of fj tree: a tree, which is a line for each of its 1 to 4000 nodes
  - VALUE         the first node, number 0
  PARENT VALUE    each further one; PARENT is the number of an earlier node
A VALUE is 0 to 1000000006. Each line ends with a line feed, the last one too.

The value of a node is its own and k times that of its k-th child, all of it
modulo 1000000007.

Example:
  $ printf -- '- 5\\n0 2\\n0 3\\n1 4\\n' | fj tree --workers 4
  17

Exit status:
  0  the value of node 0 was written
  2  a fault of the command line
  3  a faulty line, told by its number, or the pool's history is full
  4  out of memory, or a thread could not be started
  5  a read or a write failed";

/// Of `fj check`.
pub const CHECK: &str =
    "Input of fj check: a history, which is a heading as that of a script, and then a
line for each event and each seal
  acc T sub S KIND     acc T work W KIND     make T KIND
  out T W              skip T W              end T W
  add C N              dec C                 fire C zero
  fire C complete      pass C                hooked C
  settle T normal      settle T cancelled    settle T exceptional CODE
  close                stop                  rel T
  seal
A KIND is plain, or completer PARENT COUNT RELAY as in a fork. Each line ends
with a line feed, the last one too.

Written is ok and the number of events where each event follows those before it;
otherwise the first line that may not stand there, and why.

Example:
  $ printf 'async 1 1 8 64\\nacc 0 sub 0 plain\\nout 0 0\\n' | fj check
  ok 2
  $ printf 'async 1 1 8 64\\nacc 0 sub 0 plain\\nend 0 0\\n' | fj check
  line 3: worker 0 runs nothing

Exit status:
  0  the input is a history, or help was written
  1  line N: a line that may not stand there, and why, on standard output
  2  a fault of the command line
  3  fault: line N, no line of a history; or refused 13, a limit out of range
  4  out of memory
  5  a read or a write failed";

/// Of `fj trace`.
pub const TRACE: &str = "Input of fj trace: a script as that of fj replay, of either version.

Written is the history of its run, as fj check reads it: the heading, and then a
line for each event, and seal at the end of each part.

Example:
  $ printf 'async 1 1 8 64\\nsubmit 0\\npoll 0 0\\nend 0 ok\\n' | fj trace
  async 1 1 8 64
  acc 0 sub 0 plain
  out 0 0
  end 0 0
  settle 0 normal

Exit status:
  0  the history of the whole script was written, or help was
  2  a fault of the command line
  3  fault: line N, the first faulty line; or refused 13, a limit out of range
  4  out of memory
  5  a read or a write failed";

/// Of `fj test`.
pub const TEST: &str =
    "Input of fj test: a script as that of fj replay, of either version, as people
write it: with blank lines, comments behind #, any white space between words,
CR LF, and the reply that is expected behind >. A line without it may have any.

Nothing is written where all replies are as expected; otherwise the first line
with another one.

Example:
  $ printf 'async 1 1 8 64\\nsubmit 0 > task 0\\npoll 0 0 > none\\n' | fj test
  line 3: run 0, and not none

Exit status:
  0  all replies are as written, or help was
  1  line N: a reply, and the one that was expected, on standard output
  2  a fault of the command line
  3  fault: line N, the first faulty line; or refused 13, a limit out of range
  4  out of memory
  5  a read or a write failed";

/// Of `fj record`.
pub const RECORD: &str = "A JOB is sum, min, find or tree, with its options: fj record sum --help
It forks at every split, with or without --eager.

Written is the history of that very run, as fj check reads it, and no value.
A second run has another one, but by one worker. A FILE, named before the JOB,
gets when each task began and ended, in nanoseconds: fj view --notes FILE

Example:
  $ fj record sum --from 1 --to 8 --grain 4 | fj check
  ok 11

Exit status:
  0  the history was written, or help was
  2  a fault of the command line, or too many blocks
  3  a faulty line of the tree, told by its number, or a full history
  4  out of memory, or a thread could not be started
  5  a read or a write failed";

/// Of `fj explain`.
pub const EXPLAIN: &str = "Input of fj explain: a script as that of fj replay, of either version.

Written is each line with its reply, and below each refusal, and below spent,
early, skip, none and no, who is in the way and where. fj test reads it.

Example:
  $ printf 'async 1 1 8 64\\nsubmit 0\\npoll 0 0\\njoin 0 0 0\\n' | fj explain
  async 1 1 8 64
  submit 0 > task 0
  poll 0 0 > run 0
  join 0 0 0 > refused 7
    # refused 7: task 0 is on worker 0's own stack: it would wait for itself

Exit status:
  0  the whole script was explained, or help was written
  2  a fault of the command line
  3  fault: line N, the first faulty line, and why; or refused 13, and which
     limit is out of its range
  4  out of memory
  5  a read or a write failed";

/// Of `fj view`.
pub const VIEW: &str =
    "Input of fj view: a history, as that of fj check. It is checked first: where it
is none, fj view writes and answers what fj check does.

Written is, of all events, by their numbers from 1:
  tasks    a line for each task, with when it was queued, run and done
  stats    one count a line: tasks, steals, queues, busy workers
  path     the chain of runs and waits that decided the end
  chrome   a trace for Perfetto and chrome://tracing, as JSON
  dot      the trees of completers, for Graphviz
  svg      a picture, which may have a window: --from and --to are of it alone
With --notes path, chrome, dot and svg name tasks, and chrome has real times.

Example:
  $ printf 'async 1 1 8 64\\nacc 0 sub 0 plain\\nout 0 0\\nend 0 0\\n' |
    fj view --as path
  links 2
  runs 1
  waits 1
  others 0
  1..2 task 0 waits in a queue, and begins
  2..3 task 0 runs on worker 0, and ends

Exit status:
  0  the view was written, or help was
  1  line N: a line that may not stand there, and why, on standard output
  2  a fault of the command line, as a window of what is no picture
  3  fault: line N, no line of a history or of notes; or refused 13, a limit
     out of range
  4  out of memory
  5  a read or a write failed";
