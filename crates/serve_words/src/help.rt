//! The texts of the help.

/// What the program is.
pub const ABOUT: &str =
    "Filters YUV4MPEG2 streams (.y4m) frame by frame: one in a pipe, or many at once";

/// More of the program, for the long help.
pub const PAGE: &str = "Examples:
  set -o pipefail
  ffmpeg -i film.mkv -pix_fmt yuv420p -f yuv4mpegpipe - |
    y4mserve filter invert > negative.y4m
  y4mserve filter crop:16,8,1888,1064+hflip < film.y4m > mirrored.y4m
  y4mserve serve a:a.y4m:negative.y4m:1:2:invert b:b.y4m:soft.y4m:1:2:blur:2
  printf 'account 2 10\\nidle 0\\ncharge 2\\n' | y4mserve replay

Status:
  0  All went well.
  1  A fault of a stream or of the script, a stop of 'serve' that is not whole
     or closed, but of a stream that a line of FILE asked for, or no memory.
  2  A usage error, or a stream that would go to a terminal.
A pipe has the status of its last program, but with 'set -o pipefail' that of
one that failed.

Each command has a page of its own, as 'y4mserve help filter'.";

/// What `filter` does.
pub const FILTER: &str = "Filters a stream from standard input to standard output";

/// What `filter` does, at length.
pub const FILTER_LONG: &str = "Reads a YUV4MPEG2 stream (.y4m, 8 bits a sample) from standard input,
applies the operations of OPS in order to each frame, and writes the stream of
the images to standard output. The header line stays as it is, but for W and H
where OPS crops, and each image has its frame's own line.";

/// What the word `OPS` is.
pub const OPERATIONS: &str = "1 to 8 operations joined by '+', as crop:16,8,1888,1064+hflip+blur:2";

/// What `--band` is.
pub const BAND: &str = "Luma rows of a band, even, 2 to 128";

/// What `--band` is, at length.
pub const BAND_LONG: &str = "Luma rows of a band, the part of a picture that is worked on at a
time: even, 2 to 128. The images are the same for each B, and a frame
costs less for a higher one";

/// What `--threads` is.
pub const THREADS: &str = "Threads, 1 or 2";

/// What `--threads` is, at length.
pub const THREADS_LONG: &str =
    "Threads, 1 or 2. With 2, a frame of 262144 bytes or more is read while
the image of the one before it is made and written, a smaller one
behind it; one frame more may have been read where a write fails. The
images are the same";

/// What `--quiet` of `filter` is.
pub const QUIET: &str = "Show no progress and no hint on a terminal; faults are told";

/// The operations, the limits and the faults of `filter`.
pub const FILTER_PAGE: &str = "Operations, by form and example (a number is 1 to 9 decimal digits):
  invert         invert
      Each sample v of Y, Cb and Cr becomes 255 - v.
  thresh:T       thresh:128
      Y becomes 255 where it is at least T, else 0; Cb and Cr become 128.
      T is 0 to 255.
  clamp:LO,HI    clamp:16,235
      Y is moved into LO to HI; Cb and Cr stay. Both are 0 to 255, and LO is
      at most HI.
  hflip          hflip
      Every plane is mirrored left to right.
  vflip          hflip+vflip (half a turn)
      Every plane is mirrored top to bottom.
  crop:X,Y,W,H   crop:16,8,1888,1064
      The rectangle of W columns and H rows from column X and row Y on, in
      luma pixels, of every plane. It lies within the picture, and W and H are
      at least 1. X and W are even for 4:2:0 and 4:2:2, and multiples of 4 for
      4:1:1; Y and H are even for 4:2:0.
  blur:R         blur:2
      Each sample becomes the rounded mean of the square of side 2R+1 round it;
      the samples at a plane's edge go on beyond it. R is 1 to 8.
  Alpha is mirrored, cropped and blurred, and left alone by the others.

Limits:
  width and height     16384 each
  a frame's samples    67108864 bytes
  a line               1024 bytes, with its line feed
  frames               16777216
  cost of a frame      32768: each band of blur:R costs 1 + R, any other band 1
  chroma (C)           420, 420jpeg, 420mpeg2, 420paldv, 422, 411, 444,
                       444alpha, mono; 420 where there is no C

Faults, each one line on standard error behind 'y4mserve: '; status 2:
  bad band              B is odd.
  BadOp                 A part of OPS has none of the forms above.
  TooManyOps            OPS has more than 8 parts.
  output is a terminal  The stream would be shown as text: send it to a pipe or
                        a file.
Status 1:
  read Header E         The first line is no header line, by E:
      NotY4m            It does not begin with the word YUV4MPEG2.
      BadNumber         W or H is no number of 1 to 9 digits, or it is 0.
      RepeatedTag       W, H or C stands twice.
      MissingSize       There is no W, or no H.
      UnknownChroma     The value of C is none of those above.
      NotDivisible      The chroma planes would have no whole rows and columns.
      TooLarge          The width, the height or a frame is over its limit.
  read LineTooLong      A line is over its limit.
  read NotFrame         Another line stands where a FRAME line should.
  read Truncated        The input ends within a line or a frame.
  read Device           Reading failed.
  ops BadCrop           The rectangle is empty, leaves the picture or cuts a
                        chroma sample.
  ops TooManySteps      A frame costs more than its limit: a higher --band
                        helps.
  write N               Writing failed, or nobody reads on; N bytes went out.
  TooManyFrames         One more frame follows the last that is read.
  NoMemory              No memory was left; also behind 'read' and 'ops'.
  At a read fault, an ops fault and TooManyFrames the images of all frames
  before it have been written.";

/// What `replay` does.
pub const REPLAY: &str = "Runs a script on an account, or on a machine that serves streams";

/// What `replay` does, at length.
pub const REPLAY_LONG: &str =
    "Reads a script from standard input, runs its commands, and prints one line for
each. An account script moves the account of one constant bandwidth server
(Abeni and Buttazzo, 1998). A session script sets up streams that share some
workers, starts the machine that serves them, and tells it what happens. Nothing
happens and no time passes but by a command.";

/// The commands, the limits and the faults of `replay`.
pub const REPLAY_PAGE: &str =
    "A script has at most 1048576 bytes, one command a line, with single spaces; a
line ends with a line feed alone, which the last one may lack. An empty line and
a line that begins with '#' do nothing. A number is 1 to 19 digits. NAME is 1 to
32 letters, digits, '_' or '-'; W is the number of a worker, from 0, at most
4294967295; HEX is one or more pairs of hexadecimal digits. Where the first
command is 'account' it is an account script, else a session script.

Commands of an account script, each printing 'budget C deadline D':
  account Q T    A new account of maximum budget Q and period T, where
                 1 <= Q <= T <= 1048576: C is Q, and D is 0.
  idle R         A job arrives at the moment R, at most 1152921504606846976, and
                 finds the server idle: where C * T >= (D - R) * Q, C becomes Q
                 and D becomes R + T.
  charge K       K units of work were done, at most 1099511627776. Each takes 1
                 from C; where none is left, C becomes Q and D becomes D + T,
                 which stays below 4611686018427387904.

Commands of a session script before 'start'; a setting prints 'ok':
  workers N      There are N workers, 1 to 16; at first 1.
  quantum K      A lease grants at most K bands, 1 to 64; at first 4.
  band B         The streams that follow have bands of B luma rows, even, 2 to
                 128; at first 16.
  frames N       Each stream that follows accepts at most N frames, 1 to
                 16777216; at first 16777216.
  stream NAME Q T QUEUE OUTBOX OPS HEADER  Prints 'stream S', S counted from 0.
                 A stream with an account of Q units in every T moments, where
                 1 <= Q <= T <= 1048576, with at most QUEUE frames unfinished
                 and OUTBOX images waiting, each 1 to 256. OPS is as for
                 'filter'; HEADER is all that follows, spaces too: the header
                 line of its frames. The line is checked in this order: its
                 form, the name, OPS, HEADER, and the chain of OPS for such
                 frames with the last 'band'.
  start          Prints 'started'. There are 1 to 64 streams. A stream's share
                 is Q * 1000000 / T, rounded up; all together are at most
                 1000000 for each worker. The numbers are checked here: first
                 all limits, then stream by stream Q and T and the share.

Commands of a session script after 'start':
  arrive NAME HEX  A frame arrives, with the line 'FRAME'; HEX is its samples,
                 the planes one after another: 'accepted SEQ', SEQ counted from
                 0 in its stream. Where no frame of the stream was unfinished,
                 its account moves as by 'idle' at the moment that the clock
                 shows.
  lease W        The worker asks for a lease: 'leased NAME SEQ grant G'. It goes
                 to the ready stream with the earliest deadline, then the lowest
                 number, for at most the quantum, the bands that are left, and
                 what the budget pays for, but for one at least. A stream is
                 ready where it has an unfinished frame, none of its frames is
                 leased, and its outbox has room.
  band W         It does the next band of its lease: 'stepped'. The stream's
                 account is charged 1 + R units for a band of blur:R, else 1.
  settle W       It gives its lease back: 'finished SEQ' where the frame's last
                 band is done, else 'returned': the frame is next again, with
                 the bands that are done.
  tick N         The clock, 0 at first, goes on to N, at most
                 1152921504606846976: 'ticked'.
  close NAME     The stream gets no more frames: 'closing'.
  collect NAME   The stream's oldest image is given out: 'image HEX', in upper
                 case.
  state NAME     Shows the stream: 'budget C deadline D accepted A finished F
                 collected K charged U'.
  admit NAME Q T QUEUE OUTBOX OPS HEADER  Prints 'admitted S', the next number.
                 One stream more is asked for. The line is read and checked as
                 that of 'stream', with the last 'band' and 'frames'. The shares
                 that are held have to leave room for its own: a stream holds
                 its share until it is closed, all its frames are finished and
                 collected, and the clock has come to its deadline. A refused
                 stream's name stays free.

Refusals change nothing, and the script goes on: 'refused N WORD', the lowest N:
  1 NoStream       No stream has the name.
  2 Closed         A frame arrives, and the stream was closed.
  3 WrongSize      A frame of the stream has another number of samples.
  4 TooManyFrames  The stream has accepted as many frames as it may.
  5 Full           As many frames as QUEUE says are unfinished. A leased one
                   keeps its place.
  6 NoMemory       There was no memory for the frame's images; or for a stream
                   that is asked for, and nothing else speaks against it.
  7 NoWorker       There is no such worker.
  8 Busy           The worker holds a lease.
  9 NoneReady      No stream is ready.
  10 NoLease       The worker holds no lease.
  11 GrantSpent    All bands of the lease are done.
  12 Past          The moment is before the clock.
  13 ClockEnd      The moment is too late.
  14 AlreadyClosed  The stream was closed before.
  15 Empty         No image waits, and 16 doesn't hold.
  16 Drained       No image will come: the stream is closed and all is
                   collected.
  20 TooManyStreams  64 streams have a number, and none is used again.
  21 BadLimits     A number of the line that asks for a stream is outside its
                   limits, or the last 'frames' is.
  22 BadBandwidth  Its Q and T are out of range.
  23 Overload      The shares that are held leave the stream less than its
                   share.

Example: with one worker these lines print 'stream 0', 'stream 1', 'stream 2'
and 'line 4: Overload c', status 1; behind 'workers 2', which prints 'ok', the
last one prints 'started', status 0:
  stream a 1 3 4 4 invert YUV4MPEG2 W1 H1 Cmono
  stream b 1 3 4 4 invert YUV4MPEG2 W1 H1 Cmono
  stream c 1 3 4 4 invert YUV4MPEG2 W1 H1 Cmono
  start

Faults of the script, printed as the last line, 'line N: WORD'; status 1:
  BadLine        The line has none of these forms, or not one for its place: of
                 the other kind of script, or on the wrong side of 'start'. Also
                 an arrival of more than 16384 samples that are no frame of
                 a stream with the name.
  BadName        A stream has the name.
  Range          At 'charge': K, or D afterwards, is over its limit.
  BadOp          A part of OPS has none of the forms of an operation.
  TooManyOps     OPS has more than 8 parts.
  NotY4m         HEADER is refused, here and at the next six as behind 'read
                 Header' of 'filter'.
  BadNumber      W or H of HEADER.
  RepeatedTag    W, H or C of HEADER.
  MissingSize    W or H of HEADER.
  UnknownChroma  C of HEADER.
  NotDivisible   W or H of HEADER.
  TooLarge       W, H or a frame of HEADER.
  BadCrop        A rectangle of OPS is empty, leaves the picture or cuts a
                 chroma sample.
  TooManySteps   A frame of the stream costs more than 32768 units.
  BadLimits      A number is outside its limits: at 'band', else at 'start'.
  BadBandwidth   Q and T of 'account' are out of range, or at 'start', with NAME
                 behind it, those of that stream.
  Overload NAME  Those before it leave the stream less than its share.
  TooLong        The script is over its limit; N is 0.
  NoMemory       No memory was left. This one is told on standard error too.
Other faults, each one line on standard error behind 'y4mserve: '; status 1:
  read           Reading failed. Nothing was run.
  write          Writing failed, or nobody reads on.";

/// What `serve` does.
pub const SERVE: &str = "Filters many streams at once, which share some workers";

/// What `serve` does, at length.
pub const SERVE_LONG: &str =
    "Filters many streams at once. Each is read from its file IN and written to
its file OUT as by 'filter'; worker threads do the filtering for all of them,
and Q:T is a stream's share of these. When all streams have ended, a line for
each is printed. With --control streams come and go while others run.";

/// What a word of a stream is.
pub const STREAM: &str = "A stream: its name, files, share and operations";

/// What a word of a stream is, at length.
pub const STREAM_LONG: &str = "A stream, in six parts; there may be 64:
  NAME  1 to 32 letters, digits, '_' or '-', each stream's its own.
  IN    The file that is read.
  OUT   The file that is written; it is made, or emptied.
  Q, T  The stream's share: Q units in every T moments, where
        1 <= Q <= T <= 1048576.
  OPS   Its operations, as for 'filter'.
IN and OUT hold no colon. Either may be a FIFO (see mkfifo), so that
decoders and encoders stand on both sides, and IN may be /dev/stdin";

/// What `--workers` is.
pub const WORKERS: &str = "Threads that filter, 1 to 16";

/// What `--workers` is, at length.
pub const WORKERS_LONG: &str = "Threads that filter, 1 to 16. Each stream has one more, which reads
and writes. As many as the machine has processors is the fastest.
Shares decide only where streams wait for a worker, so where workers
are fewer than streams";

/// What `--quantum` is.
pub const QUANTUM: &str = "Most bands a worker does at a time, 1 to 64";

/// What `--quantum` is, at length.
pub const QUANTUM_LONG: &str = "Most bands of a frame that a worker does before it looks again which
stream comes first, 1 to 64. A lower one lets a stream that is behind
its share come sooner, a higher one costs less";

/// What `--journal` is.
pub const JOURNAL: &str = "Most journal entries, 66 to 1048576";

/// What `--journal` is, at length.
pub const JOURNAL_LONG: &str =
    "Most entries of a journal, 66 to 1048576; with --control 130 at least.
Each call of a stream or a worker is an entry; where the journal is
full, all streams stand still until each client is back. A longer one
is full less often, and takes more memory";

/// What `--control` is.
pub const CONTROL: &str = "File of lines that ask for more streams while others run";

/// What `--control` is, at length.
pub const CONTROL_LONG: &str = "File whose lines are read while streams run, a FIFO or '-' for
standard input:
  NAME:IN:OUT:Q:T:OPS  A stream comes.
  close NAME           No more is read of the stream of this name.
  state                How the streams stand is told.
  end                  No stream is taken after it, and the streams
                       end by themselves.
  stop                 The same, and no more is read of all streams.
An empty line and one that begins with '#' do nothing. Streams may be
named on the command line too, or none may";

/// What `--moment` is.
pub const MOMENT: &str = "Microseconds of a moment, 1 to 1000000";

/// What `--moment` is, at length.
pub const MOMENT_LONG: &str = "Microseconds of a moment, 1 to 1000000: the clock tells how many have
passed since the start, and never goes back. Without it a moment
passes with each offer of a frame; with --control it is 30 unless told
otherwise";

/// What `--trace` is.
pub const TRACE: &str = "File that a trace of the run is written to";

/// What `--trace` is, at length.
pub const TRACE_LONG: &str = "File that a trace of the run is written to, for ui.perfetto.dev or
chrome://tracing: what each worker and each stream does when, and how
many frames of a stream aren't finished and images wait. It is an OUT
too. Not with --control";

/// What `--quiet` of `serve` is.
pub const SERVE_QUIET: &str = "Show no progress on a terminal; faults are told";

/// The shares, the report and the faults of `serve`.
pub const SERVE_PAGE: &str = "Shares:
  A unit is one band of an operation of cost 1, such as invert; a band of blur:R
  costs 1 + R units. So in bands of 16 rows a frame of 1080 rows costs 68 units
  by invert, and 204 by blur:2.
  A moment passes with each offer of a frame, by any stream, and with nothing
  else; a frame that finds its stream's queue full is offered again. With
  --moment or --control a moment is so many microseconds of time instead.
  Q:T is a ratio: a stream's deadline moves back by T moments for each Q units
  that it has used. All shares together, each Q / T rounded up to a millionth,
  are at most the number of workers.
  A worker that is free goes to the stream with the earliest deadline that has a
  frame waiting, room for its image, and no worker at it. So a stream moves its
  own deadline back as it is served: it goes on where nobody else has work, and
  comes later where somebody has.
  A lease of a worker has no more bands than the units that are left of Q pay
  for, but one at least, so a Q below the quantum makes leases short.

Example: fast's share is half of one worker, and slow's is a sixth.
  y4mserve serve --workers 1 \\
    fast:a.y4m:a.out:30:60:invert slow:b.y4m:b.out:10:60:blur:2
While both have had frames waiting from the start, the worker does about 3 units
for fast to each one for slow. When one has none, the other has all of it, but
that moves its deadline back: when the first has frames again, it comes first
until the deadlines are level. For three frames of 1920x1080 each it prints:
  fast accepted 3 delivered 3 charged 204 stop whole
  slow accepted 3 delivered 3 charged 612 stop whole
  units 816

Report, a line for each stream in the order of the words:
  NAME accepted A delivered D charged U stop STOP
A frames were taken in, D images were written whole, and U units were done. The
last line, 'units N', has the sum. A fault of one stream leaves the others as
they are.

With --control the line of a stream is printed when it ends. A stream that a
line asks for is told by 'NAME admitted' when it is served from now on, or by
its own line where it isn't. A wrong line changes nothing, and is told by
'line N: FAULT' and, between apostrophes, its first 60 bytes; there \\xHH stands
for an apostrophe, a backslash, and what is no printable ASCII.
Behind 'state' each stream has a line, 'NAME accepted A finished F collected K
charged U budget C deadline E' or, until it is served, 'NAME opening'. That of
one whose write failed ends in 'lost its output'; 'NAME lost its output' is told
once when that happens. One that ended and still holds its share has 'NAME held
Q:T until M'. Then 'shares S of W' has the shares that are kept of all that
there are, in millionths of a worker. The last, 'now M streams N', has the
moment and how many are served.

Where standard error is a terminal, a line for each stream shows there how far
it has come, at most five times a second: 'NAME frames in I out O', or after a
second 'waiting for NAME' until its files are open. With --control it goes when
it is told what its stream came to.

Stops, the ends of these lines:
  whole          All frames were read, and all images written.
  open           IN can't be opened, or is a FIFO that another stream reads. OUT
                 is not made.
  read F         F as for 'filter'. Without a good header OUT is not made.
  ops E          E is BadCrop, TooManySteps or NoMemory, as for 'filter'. OUT is
                 not made.
  create         OUT can't be made.
  write N        Writing failed, or nobody reads on; N bytes went out.
  refused TooManyFrames  One more frame follows the last that is read.
  refused ClockEnd       The moment of an offer is too late. No run comes to
                 this: its clock stays at the last moment.
  refused NoMemory       There was no memory for a frame or its image, or none
                 to go on with when the journal was full.
  torn           An answer of the server contradicts the stream's own count.
  closed         It was closed, and the images of all that was read are
                 written. Where one is missing, 'write N' or 'read Device'
                 is told.
  admit E        It isn't served: E is TooManyStreams, BadLimits, BadBandwidth,
                 Overload or NoMemory.

What may be wrong with a line of FILE; the first of these is told:
  TooLong        It has more than 1024 bytes.
  BadLine        It has none of the forms, or it is the last and isn't ended;
                 a last 'end' need not be.
  BadName        A stream that hasn't ended has the name.
  BadFile        A file that is written, or a FIFO, stands twice: in the line,
                 or in another stream that hasn't ended; or it is FILE, the
                 report's or standard error's; or a read of the FIFO waits,
                 though its stream ended.
  BadOp          A part of OPS is no operation.
  TooManyOps     OPS has more than 8 parts.
  BadBandwidth   Q and T are not 1 <= Q <= T <= 1048576.
  Ended          It asks for a stream, behind 'end' or 'stop'.
  NoStream       No stream has the name.
  AlreadyClosed  The stream was closed before.

The streams are opened side by side: IN, whose header is read, and then OUT.
What writes to a FIFO, or reads from one, is to be started before, or beside.
At most 4 frames of a stream are unfinished, and 4 images wait to be written.

Faults, each one line on standard error behind 'y4mserve: '; status 2:
  bad band              B is odd.
  no streams            There is none, and no --control.
  too many streams      There are more than 64.
  bad stream WORD       WORD has not the six parts above, or IN is /dev/stdin
                        and FILE is '-'.
  repeated name NAME    Two streams have the name.
  BadOp NAME            A part of the stream's OPS is no operation.
  TooManyOps NAME       Its OPS has more than 8 parts.
  repeated file FILE    A FIFO, or a file that is written, stands twice; the
                        files of the report, of standard error, of --control
                        and of --trace count too.
  trace and control     There are --trace and --control.
Status 1, before any file is opened:
  control               FILE can't be opened.
  BadBandwidth NAME     Q and T are not 1 <= Q <= T <= 1048576.
  Overload NAME         The streams before it leave it less than its share.
  NoMemory              No memory was left.
Status 1, in place of the report, or with --control beside it:
  session NoMemory      There was no memory, or no thread, to serve with.
  session Mismatch      What streams and workers did isn't what was recorded.
  write                 The report couldn't be written.
Status 1, beside the report:
  control read          Reading FILE failed, and no more of it is read.
  trace                 The file of --trace couldn't be made or written whole,
                        or there was no memory for some of the trace.
Status 1 also where a stop is not whole or closed, but of a stream that a line
of FILE asked for.";
