//! Devices that fail once and would go on, that take nothing, and that come back.
use super::reader::{Next, next_are, opened};
use super::{
    INVERTED, STREAM, filter_into, open_fault, same, same_list, same_part, same_unless_refused,
};
use filters::parse_ops;
use row_bands::BandHeight;
use std::alloc::Global;
use std::io::{self, ErrorKind, Read, Write};
use std::process::Abort;
use std::test::Fail;
use y4m_header::Header;
use y4m_stream::{
    FilterFault, OverRead, OverWrite, ReadFault, StreamReader, WriteFault, filter_between,
    filter_bytes, put_all,
};

/// Gives its bytes, seven at a time; but the read before which so many others were made fails, and is as if
/// it had not been made.
#[derive(Drop)]
pub struct FailsOnce<'a> {
    pub left: &'a [u8],
    pub before: Option<usize>,
}

impl Read for FailsOnce<'_> {
    fn read(&mut self, buf: &mut [u8]) -> io::Result<usize> {
        match self.before {
            Some(0) => {
                self.before = None;
                return Err(io::Error::from(ErrorKind::Interrupted));
            }
            Some(n) => self.before = Some(n - 1),
            None => {}
        }
        let n = buf.len().min(self.left.len()).min(7);
        let (now, left) = self.left.split_at(n);
        buf[..n].copy_from_slice(now);
        self.left = left;
        Ok(n)
    }
}

/// What so many reads give: the data of a frame are read by themselves.
pub const GIVEN: &[usize] = &[0, 7, 14, 21, 28, 35, 38, 45, 52, 59, 61];

/// What is answered where a read fails.
pub const DEVICE: Result<u64, FilterFault> = Err(FilterFault::Read(ReadFault::Device));

/// The stream, whose reader fails once behind so many others.
pub fn failing(before: usize) -> FailsOnce<'static> {
    FailsOnce {
        left: STREAM,
        before: Some(before),
    }
}

#[test]
fn no_read_is_tried_again(rt: HostRuntime) -> Result<(), Fail> {
    for (before, given) in (0..).zip(GIVEN) {
        let mut room = [0; 64];
        let got = filter_into(rt.alloc(), "invert", failing(before), &mut room)?;
        same_part(&rt, *given, &room, got, DEVICE);
    }
    Ok(())
}

const FAULT_AND_FAILED: &[Next] = &[Err(ReadFault::Device), Err(ReadFault::Failed)];

#[test]
fn a_reader_that_met_a_failed_read_has_failed(rt: HostRuntime) -> Result<(), Fail> {
    let mut reader = opened(rt.alloc(), failing(5))?;
    next_are(&rt, rt.alloc(), &mut reader, FAULT_AND_FAILED);
    let left = reader.into_source().into_inner().left;
    same(&rt, left.len(), 61 - 35);
    Ok(())
}

/// Takes no byte.
#[derive(Drop)]
struct Full;

impl Write for Full {
    fn write(&mut self, _buf: &[u8]) -> io::Result<usize> {
        Ok(0)
    }

    fn flush(&mut self) -> io::Result<()> {
        Ok(())
    }
}

#[test]
fn a_writer_that_takes_nothing_has_failed(rt: HostRuntime) -> Result<(), Fail> {
    let header = Header::parse(rt.alloc(), b"YUV4MPEG2 W1 H1 Cmono")?;
    same(&rt, open_fault(Full, &header), Some(WriteFault::Device(0)));
    same(&rt, put_all(&mut OverWrite::new(Full), b"abc"), Err(0));
    same(&rt, put_all(&mut OverWrite::new(Full), b""), Ok(()));
    Ok(())
}

#[test]
fn both_ends_come_back(rt: HostRuntime) -> Result<(), Fail> {
    filter_gives_both_back(&rt, rt.alloc())?;
    reader_gives_its_source_back(&rt, rt.alloc())?;
    filtered_bytes_give_the_writer_back(&rt, rt.alloc())
}

/// One frame of the stream is whole.
fn filter_gives_both_back(rt: &impl Abort, alloc: Global) -> Result<(), Fail> {
    let height = BandHeight::new(2).ok_or("height")?;
    let left = STREAM.get(..45).ok_or("one frame and a part")?;
    let ops = parse_ops(alloc, b"invert")?;
    let output = OverWrite::new(Vec::new(alloc));
    let (input, output, result) = filter_between(alloc, OverRead::new(left), output, ops, height);
    let cut = Err(FilterFault::Read(ReadFault::Truncated));
    same_unless_refused(rt, (result, input.into_inner()), (cut, [].as_slice()));
    let written = output.into_inner();
    same(rt, Some(written.as_slice()), INVERTED.get(..38));
    Ok(())
}

fn reader_gives_its_source_back(rt: &impl Abort, alloc: Global) -> Result<(), Fail> {
    let (input, fault) = match StreamReader::open_or_return(alloc, OverRead::new(b"F".as_slice())) {
        Ok(_) => return Err("opened".into()),
        Err(failed) => failed,
    };
    let got = (fault, input.into_inner());
    same(rt, got, (ReadFault::Truncated, [].as_slice()));
    Ok(())
}

fn filtered_bytes_give_the_writer_back(rt: &impl Abort, alloc: Global) -> Result<(), Fail> {
    let height = BandHeight::new(2).ok_or("height")?;
    let ops = parse_ops(alloc, b"invert")?;
    let output = OverWrite::new(Vec::new(alloc));
    let (output, result) = filter_bytes(alloc, STREAM, output, ops, height);
    same_unless_refused(rt, result, Ok(3));
    same_list(rt, &output.into_inner(), INVERTED);
    Ok(())
}
