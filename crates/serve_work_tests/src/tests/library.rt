//! The examples of `docs/LIBRARY.md`: a header, one frame, and a session of two streams.
ghost use Rattle.std.specs.Prelude.{⊤, IfOk};
ghost use Rattle.y4m_stream.specs.Reader.{IsOfHeader};
ghost use Rattle.serve_work.specs.Sessions.{IsInput};

use filters::{Chain, parse_ops};
use frame_view::{Frame, Geometry};
use lease::JobSpec;
use row_bands::BandHeight;
use serve_core::{Setup, StreamSpec};
use serve_work::{Clock, Gate, Served, Stop, serve_session};
use std::alloc::Global;
use std::sync::{Arc, Wait};
use std::test::Fail;
use std::thread::Threads;
use y4m_header::{Chroma, Header, HeaderError, check_frame_line};
use y4m_stream::{OverRead, OverWrite, StreamReader};

#[test]
fn a_header_line_is_parsed(rt: HostRuntime) -> Result<(), Fail> {
    let header = Header::parse(rt.alloc(), b"YUV4MPEG2 W1920 H1080 F25:1 C422")?;
    assert_eq!(rt; header.width(), 1920);
    assert_eq!(rt; header.height(), 1080);
    assert_eq!(rt; header.chroma(), Chroma::S422);
    let refused = Header::parse(rt.alloc(), b"YUV4MPEG2 W1920 C422").err();
    assert_eq!(rt; refused, Some(HeaderError::MissingSize));
    Ok(())
}

/// What these operations make of a frame's samples, in bands of 16 rows.
fn image_of(alloc: Global, geometry: Geometry, samples: &[u8], ops: &str) -> Result<Vec<u8>, Fail> {
    let line = b"FRAME".as_slice();
    check_frame_line(line)?;
    let frame = Frame::new(geometry, line.to_vec(alloc)?, samples.to_vec(alloc)?)?;
    let ops = parse_ops(alloc, ops.as_bytes())?;
    let height = BandHeight::new(16).ok_or("no height")?;
    let chain = Chain::new(alloc, ops, frame.geometry(), height)?;
    let image = chain.apply(alloc, &frame)?;
    Ok(image.data().to_vec(alloc)?)
}

#[test]
fn a_frame_is_filtered(rt: HostRuntime) -> Result<(), Fail> {
    let header = Header::parse(rt.alloc(), b"YUV4MPEG2 W2 H2 Cmono")?;
    let samples = [0, 1, 254, 255];
    let image = image_of(rt.alloc(), Geometry::of(&header), &samples, "hflip+invert")?;
    assert_eq!(rt; image.as_slice(), [254, 255, 0, 1].as_slice());
    Ok(())
}

/// Each band is done at once, and by one thread.
#[derive(Drop)]
struct AtOnce;

impl Gate for AtOnce {
    fn before_band(&self, _worker: u32, _stream: u32, _number: u64) {}

    fn allows_halves(&self, _samples: usize) -> bool {
        false
    }

    fn before_half(&self, _worker: u32, _half: u32) {}
}

/// All frames are offered at moment 0.
#[derive(Drop)]
struct Still;

impl Clock for Still {
    ghost gives = { λ _ _. ⊤ };

    fn moment(&self) -> u64 {
        0
    }
}

/// A stream of frames of this header, with a third of a worker. At most 4 of its frames are unfinished, and
/// at most 4 images wait.
fn stream_of(alloc: Global, header: &Header, ops: &str) -> Result<StreamSpec, Fail>
    ensures { IfOk result (λ stream. IsOfHeader header.now stream.chain.geometry) }
{
    let height = BandHeight::new(16).ok_or("no height")?;
    let ops = parse_ops(alloc, ops.as_bytes())?;
    let geometry = Geometry::of(header);
    let chain = Chain::new(alloc, ops, geometry, height)?;
    let spec = Arc::new(alloc, JobSpec::new(chain))?;
    Ok(StreamSpec::new(geometry, spec, 1, 3, 4, 4, 1 << 24))
}

/// Where a stream is read from, and written to.
type Ends<'a> = (StreamReader<OverRead<&'a [u8]>>, OverWrite<Vec<u8>>);

/// Reads the header of a stream.
fn opened<'a>(alloc: Global, bytes: &'a [u8], ops: &str) -> Result<(StreamSpec, Ends<'a>), Fail>
    ensures { IfOk result (λ made. IsInput made.0 made.1) }
{
    let reader = StreamReader::open(alloc, OverRead::new(bytes))?;
    let spec = stream_of(alloc, reader.header(), ops)?;
    Ok((spec, (reader, OverWrite::new(Vec::new(alloc)))))
}

/// What became of the streams, in order.
type All<'a> = Vec<Served<OverRead<&'a [u8]>, OverWrite<Vec<u8>>>>;

/// Serves two streams by two workers.
fn served<'a, T: Threads + Wait + Sync>(
    rt: &T,
    alloc: Global,
    first: &'a [u8],
    second: &'a [u8],
) -> Result<All<'a>, Fail> {
    let (first, input) = opened(alloc, first, "invert")?;
    let (second, other) = opened(alloc, second, "hflip")?;
    let mut specs = Vec::new(alloc);
    specs.push(first)?;
    specs.push(second)?;
    let mut inputs = Vec::new(alloc);
    inputs.push(input)?;
    inputs.push(other)?;
    let setup = Setup::new(2, 4, specs)?;
    Ok(serve_session(rt, alloc, setup, inputs, 1000, &AtOnce, &Still)?)
}

const FIRST: &[u8] = b"YUV4MPEG2 W2 H1 Cmono\nFRAME\n\x00\x0fFRAME\n\xf0\xff";

const SECOND: &[u8] = b"YUV4MPEG2 W2 H1 Cmono\nFRAME\n\x01\x02";

#[test]
fn two_streams_are_served(rt: HostRuntime) -> Result<(), Fail> {
    let mut ends = served(&rt, rt.alloc(), FIRST, SECOND)?;
    let second = ends.pop().ok_or("no second stream")?;
    let first = ends.pop().ok_or("no first stream")?;
    assert_eq!(rt;
        (first.stop, first.accepted, first.delivered),
        (Stop::Whole, 2, 2)
    );
    let inverted = first.writer.into_inner();
    let mirrored = second.writer.into_inner();
    let wanted = b"YUV4MPEG2 W2 H1 Cmono\nFRAME\n\xff\xf0FRAME\n\x0f\x00".as_slice();
    assert_eq!(rt; inverted.as_slice(), wanted);
    assert_eq!(rt;
        mirrored.as_slice(),
        b"YUV4MPEG2 W2 H1 Cmono\nFRAME\n\x02\x01".as_slice()
    );
    Ok(())
}
