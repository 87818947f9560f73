//! A reader of frames, which fails for good at its first fault.
ghost use Rattle.std.specs.Prelude.{◌≡◌, ◌≤◌, ◌∷◌, ◌++◌, [], Option, length, IfOk, IfErr};
ghost use Rattle.std.specs.Prelude.{IfSome, OnOk};
ghost use Rattle.std.specs.Io.KnownBytes.{Consumes, Keeps};
ghost use Rattle.y4m_header.specs.HeaderLine.{IsHeaderLine};
ghost use Rattle.y4m_stream.specs.Front.{IsFrameAhead, IsReadAhead, StandsAtHeader};
ghost use Rattle.y4m_stream.specs.Inside.{BeginsFrame, rest_of};
ghost use Rattle.y4m_stream.specs.Reader.{Answers, FailsToOpen, IsOfHeader, IsOpened, Opens, answer_into};
ghost use Rattle.y4m_stream.specs.Reader.{answer_of, data_len_of, failures_told};

use crate::device::Source;
use crate::fault::{ReadFault, ReadResult};
use crate::frame_line::{find_frame_line, lacks, take_data};
use crate::line::find_line;
use crate::lookahead::{LINE_LIMIT, Lookahead};
use frame_view::{Frame, Geometry};
use std::alloc::Global;
use std::marker::Model;
use y4m_header::{Header, HeaderError};

/// What the next call does.
#[derive(Clone, Copy)]
pub enum Phase {
    /// It reads on.
    Open,
    /// It answers the end again.
    Ended,
    /// It answers that the reader has failed.
    Failed,
}

/// Takes the header line and its line feed off the front.
fn take_header<R: Source>(alloc: Global, input: &mut Lookahead<R>) -> Result<Header, ReadFault>
    ensures header { IfOk result (λ header.
        IsHeaderLine header.line header.width header.height header.chroma) }
    ensures taken { IfOk result (λ header.
        Consumes (rest_of input.old) (rest_of input.new) (header.line ++ 10 ∷ [])) }
    ensures fault { IfErr result (λ fault. StandsAtHeader fault (rest_of input.old) input.new.left) }
    ensures few_held { OnOk result (length input.new.held ≤ LINE_LIMIT) }
    ensures failures { input.new.failures ≡ failures_told result input.old.failures }
{
    let end = find_line(input)?;
    let header = match Header::parse(alloc, &input.bytes()[..end]) {
        Ok(header) => header,
        Err(HeaderError::NoMemory) => return Err(ReadFault::NoMemory),
        Err(error) => return Err(ReadFault::Header(error)),
    };
    input.consume(end + 1);
    Ok(header)
}

/// Looks for the next frame, and answers the length of its line, without the line feed, or none at the end.
/// The reader has then failed, until the frame is taken.
fn begin_frame<R: Source>(input: &mut Lookahead<R>, phase: &mut Phase) -> ReadResult<Option<usize>>
    ensures answer { BeginsFrame input.old input.new phase.old phase.new result }
    ensures rest { Keeps (rest_of input.old) (rest_of input.new) }
    ensures few_held { phase.old ≡ Phase.Open → length input.new.held ≤ LINE_LIMIT }
{
    match *phase {
        Phase::Failed => return Err(ReadFault::Failed),
        Phase::Ended => return Ok(None),
        Phase::Open => {}
    }
    *phase = Phase::Failed;
    let end = find_frame_line(input)?;
    if end.is_none() {
        *phase = Phase::Ended;
    }
    Ok(end)
}

/// The frames of a stream, read one after another.
///
/// It reads again only while it lacks bytes for what it is asked, and keeps what came beyond that, at most
/// 1,024 bytes, for the next call. It tells its source of each frame that it has read whole. No read that
/// failed is tried again, an interrupted one neither: after its first fault every call answers `Failed`. The
/// frames that were read before stay whole; `into_source` gives the source back.
#[derive(Drop)]
pub struct StreamReader<R: Source> {
    input: Lookahead<R>,
    header: Header,
    phase: Phase,
}

impl<R: Source> Model for StreamReader<R> {
    ghost use Rattle.y4m_stream.specs.Inside.{state_of};
    ghost use Rattle.y4m_stream.specs.Reader.{ReaderState};

    ghost Value = { ReaderState };

    ghost view = { λ a. state_of a.header a.phase a.input };
}

impl<R: Source + Drop> StreamReader<R> {
    /// Reads the header line and its line feed. Where that fails the source is given up: in the clause `last`
    /// is the source as it was then.
    ///
    /// An input that ends before its first line feed is `Truncated`, or `LineTooLong` where it has 1,024
    /// bytes or more. `NoMemory` is answered where the header line came whole and could not be kept.
    pub fn open(alloc: Global, source: R) -> Result<StreamReader<R>, ReadFault>
        ensures { (last : R)
            × Opens (R.remaining source) (R.failures source) (R.remaining last) (R.failures last) result }
    {
        match StreamReader::open_or_return(alloc, source) {
            Ok(opened) => Ok(opened),
            Err((_, fault)) => Err(fault),
        }
    }

    /// Reads the header line and its line feed, as `open` does. Where that fails the source comes back,
    /// without the bytes that were read.
    pub fn open_or_return(alloc: Global, source: R) -> Result<StreamReader<R>, (R, ReadFault)>
        ensures opened { IfOk result (IsOpened (R.remaining source) (R.failures source)) }
        ensures fault { IfErr result (λ failed. FailsToOpen (R.remaining source) (R.failures source)
            (R.remaining failed.0) (R.failures failed.0) failed.1) }
    {
        let mut input = Lookahead::over(source);
        match take_header(alloc, &mut input) {
            Ok(header) => Ok(StreamReader {
                input,
                header,
                phase: Phase::Open,
            }),
            Err(fault) => Err((input.into_source(), fault)),
        }
    }

    /// Gives the source back, without the bytes that were read ahead.
    pub fn into_source(self) -> R
        ensures remaining { R.remaining result ≡ self.left }
        ensures failures { R.failures result ≡ self.failures }
        ensures ahead { IsReadAhead self.rest self.left }
    {
        self.input.into_source()
    }

    /// The header that the stream began with.
    pub fn header(&self) -> &Header
        ensures { result.now ≡ self.now.header }
    {
        &self.header
    }

    /// Whether the next frame has come whole, or the end or a fault is there. It waits for that at most so
    /// many milliseconds, as the source does, and takes no byte.
    pub fn is_ready(&self, milliseconds: u64) -> bool {
        match lacks(self.input.bytes(), Geometry::of(&self.header).bytes()) {
            Some(wanted) => self.input.source().is_ready(milliseconds, wanted),
            None => true,
        }
    }

    /// Reads the next frame, or answers none at the end.
    ///
    /// An input that ends within a frame is `Truncated`. `NoMemory` is answered where the frame's line came
    /// whole and there was no memory for the frame.
    pub fn next_frame(&mut self, alloc: Global) -> Result<Option<Frame>, ReadFault>
        ensures answer { Answers self.old self.new (answer_of result) }
        ensures geometry { IfOk result (λ next. IfSome next (λ frame.
            IsOfHeader self.old.header frame.geometry)) }
    {
        let Some(end) = begin_frame(&mut self.input, &mut self.phase)? else {
            return Ok(None);
        };
        let geometry = Geometry::of(&self.header);
        let mut frame = Frame::blank(alloc, geometry, &self.input.bytes()[..end])?;
        take_data(&mut self.input, end, &mut frame)?;
        self.phase = Phase::Open;
        Ok(Some(frame))
    }

    /// Reads the next frame into the memory of this one, or answers `false` at the end.
    ///
    /// An input that ends within a frame is `Truncated`. Memory is taken only where the frame's line is
    /// another than this one's: `NoMemory` is answered where that line came whole and could not be kept.
    /// After a fault, and at the end, the frame has its geometry still, and no line or samples to rely on.
    pub fn read_frame(&mut self, alloc: Global, frame: &mut Frame) -> Result<bool, ReadFault>
        requires { IsOfHeader self.old.header frame.old.geometry }
        ensures answer { Answers self.old self.new (answer_into frame.new result) }
        ensures ahead { self.old.phase ≡ Phase.Open → IfErr result (λ _.
            IsFrameAhead (data_len_of self.old.header) self.old.rest self.new.left) }
        ensures geometry { frame.new.geometry ≡ frame.old.geometry }
    {
        let Some(end) = begin_frame(&mut self.input, &mut self.phase)? else {
            return Ok(false);
        };
        frame.set_line(alloc, &self.input.bytes()[..end])?;
        take_data(&mut self.input, end, frame)?;
        self.phase = Phase::Open;
        Ok(true)
    }
}
