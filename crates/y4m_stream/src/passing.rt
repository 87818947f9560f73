//! The frames of a stream, each read, filtered and written before the next.
ghost use Rattle.std.specs.Prelude.{◌≡◌, ◌<◌};
ghost use Rattle.y4m_stream.specs.Inside.{CanBegin, CanFilter, HasPassedInTurn, KeepsSizes, PassesNext};
ghost use Rattle.y4m_header.specs.declared.limits.TheConstants.{MOST_FRAMES};

use crate::device::{Sink, Source};
use crate::fault::FilterFault;
use crate::filter::Filter;
use crate::reader::StreamReader;
use crate::writer::StreamWriter;
use std::alloc::Global;
use y4m_header::MOST_FRAMES;

/// Reads the next frame and writes its image, or answers `false` at the end.
fn pass_frame<R: Source + Drop, W: Sink>(
    alloc: Global,
    reader: &mut StreamReader<R>,
    writer: &mut StreamWriter<W>,
    filter: &mut Filter,
) -> Result<bool, FilterFault>
    requires ready { CanFilter filter.old reader.old writer.old }
    requires room_for_frame { writer.old.frames < MOST_FRAMES }
    ensures keeps_sizes { KeepsSizes filter.old filter.new }
    ensures header { reader.new.header ≡ reader.old.header }
    ensures answer { PassesNext filter.old.images.chain reader.old reader.new writer.old writer.new result }
{
    if !reader.read_frame(alloc, &mut filter.frame)? {
        return Ok(false);
    }
    filter.images.make(alloc, &mut filter.frame)?;
    writer.put(filter.images.image(&filter.frame))?;
    Ok(true)
}

/// Reads frames to the end and writes their images. A frame and what its images are made in have the same
/// memory for all of them.
pub fn pass_frames<R: Source + Drop, W: Sink>(
    alloc: Global,
    reader: &mut StreamReader<R>,
    writer: &mut StreamWriter<W>,
    filter: &mut Filter,
) -> Result<u64, FilterFault>
    requires { CanBegin filter.old reader.old writer.old }
    ensures { HasPassedInTurn filter.old.images.chain reader.old reader.new writer.old writer.new result }
{
    for count in 0..MOST_FRAMES {
        if !pass_frame(alloc, reader, writer, filter)? {
            return Ok(count);
        }
    }
    if reader.read_frame(alloc, &mut filter.frame)? {
        return Err(FilterFault::TooManyFrames);
    }
    Ok(MOST_FRAMES)
}
