//! A stream, filtered from end to end.
ghost use Rattle.std.specs.Prelude.{◌≡◌, ◌≢◌, ◌⊎◌, ℕ, List, Option, IfOk, IfErr, OnOk, Some, true, false};
ghost use Rattle.std.specs.Prelude.{unwrap_or};
ghost use Rattle.std.specs.Io.KnownBytes.{Keeps};
ghost use Rattle.y4m_stream.specs.Filtered.{CountsWrites, IsFiltered, LacksChain, ends_of};
ghost use Rattle.y4m_stream.specs.Filtered.{filter_reads_told};
ghost use Rattle.y4m_stream.specs.Inside.{Closes, CountsClosing, FailsToBegin, IsFilterFor, filter_writes_at};
ghost use Rattle.y4m_stream.specs.Reader.{IsOfHeader};
ghost use Rattle.y4m_stream.specs.Served.{IsHeaderOfImages};
ghost use Rattle.y4m_stream.specs.Writer.{FlushesOrFails, IsOpenedFor};

use crate::device::{Sink, Source};
use crate::fault::{FilterFault, Filtered, ReadFault};
use crate::passing::pass_frames;
use crate::reader::StreamReader;
use crate::writer::StreamWriter;
use filters::{Chain, FilterError, Images, Op};
use frame_view::{Frame, Geometry};
use row_bands::BandHeight;
use std::alloc::Global;
use y4m_header::Header;

/// What making a part of a filter answers.
pub type Made<T> = Result<T, FilterError>;

/// What a stream is filtered with: the chain with its canvases, a frame, and the header of the images where
/// the chain holds a crop.
#[derive(Drop)]
pub struct Filter {
    pub images: Images,
    pub frame: Frame,
    resized: Option<Header>,
}

/// The header of the images that the chain makes of the header's frames, where it holds a crop: the header
/// with the size of the images. None where the frames' own header stays.
pub fn resized_header(alloc: Global, chain: &Chain, header: &Header) -> Made<Option<Header>>
    requires { IsOfHeader header.now chain.now.geometry }
    ensures shown { IfOk result (λ resized.
        IsHeaderOfImages chain.now header.now (unwrap_or resized header.now)) }
    ensures memory { IfErr result (λ e. e ≡ FilterError.NoMemory) }
{
    chain.recall_is_chain();
    if !chain.has_crop() {
        return Ok(None);
    }
    let size = chain.out_geometry();
    match header.resized(alloc, size.width, size.height) {
        Ok(header) => Ok(Some(header)),
        Err(_) => Err(FilterError::NoMemory),
    }
}

impl Filter {
    /// Takes the memory of a frame and of all canvases.
    fn new(alloc: Global, ops: Vec<Op>, header: &Header, height: BandHeight) -> Made<Filter>
        ensures ok { IfOk result (IsFilterFor ops.items height header.now) }
        ensures refused { IfErr result
            (LacksChain ops.items height header.now.width header.now.height header.now.chroma) }
    {
        let geometry = Geometry::of(header);
        let chain = Chain::new(alloc, ops, geometry, height)?;
        let resized = resized_header(alloc, &chain, header)?;
        let frame = Frame::blank(alloc, geometry, b"FRAME")?;
        let images = Images::new(alloc, chain)?;
        Ok(Filter {
            images,
            frame,
            resized,
        })
    }
}

/// The header that is written: the resized one, where there is one.
pub fn shown_header<'a>(resized: &'a Option<Header>, header: &'a Header) -> &'a Header
    ensures { result.now ≡ unwrap_or resized.now header.now }
{
    match resized {
        Some(resized) => resized,
        None => header,
    }
}

/// Makes the chain for the header's frames, and writes the header line of the images.
pub fn begin<W: Sink>(
    alloc: Global,
    header: &Header,
    output: W,
    ops: Vec<Op>,
    height: BandHeight,
) -> Result<(Filter, StreamWriter<W>), (W, FilterFault)>
    ensures filter { IfOk result (λ begun. IsFilterFor ops.items height header.now begun.0) }
    ensures opened { IfOk result (λ begun. IsOpenedFor (unwrap_or begun.0.resized header.now)
        (W.contents output) (W.failures output) begun.1) }
    ensures fault { IfErr result (λ failed. FailsToBegin failed.1 ops.items height header.now
        (W.contents output) (W.contents failed.0)) }
    ensures writes { IfErr result (λ failed.
        W.failures failed.0 ≡ filter_writes_at failed.1 (W.failures output)) }
    ensures closed { IfErr result (λ failed. (failed.0 ≡ output)
        ⊎ FlushesOrFails (W.is_flushed failed.0) (W.failures output) (W.failures failed.0)) }
{
    let filter = match Filter::new(alloc, ops, header, height) {
        Ok(filter) => filter,
        Err(error) => return Err((output, FilterFault::Ops(error))),
    };
    match StreamWriter::open(output, shown_header(&filter.resized, header)) {
        Ok(writer) => Ok((filter, writer)),
        Err((output, fault)) => Err((output, FilterFault::Write(fault))),
    }
}

/// Flushes the writer, and answers the first fault, if there is one.
pub fn close<W: Sink>(writer: StreamWriter<W>, passed: Filtered) -> (W, Filtered)
    ensures keeps_contents { Keeps writer.contents (W.contents result.0) }
    ensures answer { Closes passed writer result.1 }
    ensures counted { CountsClosing passed writer result.1 (W.failures result.0) }
    ensures flushed { OnOk result.1 (W.is_flushed result.0 ≡ true) }
    ensures closed { writer.failed ≡ false
        → FlushesOrFails (W.is_flushed result.0) writer.failures (W.failures result.0) }
{
    let (output, finished) = writer.finish();
    match (passed, finished) {
        (Ok(_), Err(fault)) => (output, Err(FilterFault::Write(fault))),
        (passed, _) => (output, passed),
    }
}

/// Reads a stream to its end and writes it with the image of each of its frames in the frame's place, on the
/// caller's thread; answers the number of frames, and gives the sink back.
///
/// The operations are applied in order, each to the whole frame, in bands of this height. The reader is
/// opened first, then the chain is made for the header's frames, and then the header line is written. Frames
/// and canvases have the same memory for the whole stream; memory is taken anew only for a frame line that is
/// another than the one in its place. At most 16,777,216 images are written. No call on the source or the
/// sink that failed is tried again. The sink is flushed at the end, and after a fault behind the header line
/// too, where it has not failed.
///
/// Want of memory is told as `Read(NoMemory)` where it was for the header or a frame's line, and as
/// `Ops(NoMemory)` where it was for the chain, its frames and its canvases, the header of the images or an
/// image's line.
///
/// In the first clause `last` is the source as it was given up.
pub fn filter_stream<R: Source + Drop, W: Sink>(
    alloc: Global,
    input: R,
    output: W,
    ops: Vec<Op>,
    height: BandHeight,
) -> (W, Filtered)
    ensures answer { (last : R) × (R.failures last ≡ filter_reads_told result.1 (R.failures input))
        × IsFiltered result.1 ops.items height
        (ends_of (R.remaining input) (R.remaining last) (W.contents output) (W.contents result.0)) }
    ensures writes { CountsWrites result.1 (W.failures output) (W.failures result.0) }
    ensures flushed { OnOk result.1 (W.is_flushed result.0 ≡ true) }
    ensures closed { (result.0 ≡ output)
        ⊎ FlushesOrFails (W.is_flushed result.0) (W.failures output) (W.failures result.0) }
{
    let (_, output, answer) = filter_between(alloc, input, output, ops, height);
    (output, answer)
}

/// Does what [`filter_stream`] does, and gives the source back too, without the bytes that were read ahead.
pub fn filter_between<R: Source + Drop, W: Sink>(
    alloc: Global,
    input: R,
    output: W,
    ops: Vec<Op>,
    height: BandHeight,
) -> (R, W, Filtered)
    ensures answer { IsFiltered result.2 ops.items height
        (ends_of (R.remaining input) (R.remaining result.0) (W.contents output) (W.contents result.1)) }
    ensures reads { R.failures result.0 ≡ filter_reads_told result.2 (R.failures input) }
    ensures writes { CountsWrites result.2 (W.failures output) (W.failures result.1) }
    ensures flushed { OnOk result.2 (W.is_flushed result.1 ≡ true) }
    ensures closed { (result.1 ≡ output)
        ⊎ FlushesOrFails (W.is_flushed result.1) (W.failures output) (W.failures result.1) }
{
    let mut reader = match StreamReader::open_or_return(alloc, input) {
        Ok(reader) => reader,
        Err((input, fault)) => return (input, output, Err(FilterFault::Read(fault))),
    };
    let (mut filter, mut writer) = match begin(alloc, reader.header(), output, ops, height) {
        Ok(begun) => begun,
        Err((output, fault)) => return (reader.into_source(), output, Err(fault)),
    };
    let passed = pass_frames(alloc, &mut reader, &mut writer, &mut filter);
    let (output, answer) = close(writer, passed);
    (reader.into_source(), output, answer)
}

/// Does what [`filter_stream`] does with bytes in memory: no read of them fails.
pub fn filter_bytes<W: Sink>(
    alloc: Global,
    input: &[u8],
    output: W,
    ops: Vec<Op>,
    height: BandHeight,
) -> (W, Filtered)
    ensures no_device { IfErr result.1 (λ fault. fault ≢ FilterFault.Read ReadFault.Device) }
    ensures answer { (left : Option (List ℕ)) × IsFiltered result.1 ops.items height
        (ends_of (Some input.now) left (W.contents output) (W.contents result.0)) }
    ensures writes { CountsWrites result.1 (W.failures output) (W.failures result.0) }
    ensures flushed { OnOk result.1 (W.is_flushed result.0 ≡ true) }
    ensures closed { (result.0 ≡ output)
        ⊎ FlushesOrFails (W.is_flushed result.0) (W.failures output) (W.failures result.0) }
{
    filter_stream(alloc, input, output, ops, height)
}
