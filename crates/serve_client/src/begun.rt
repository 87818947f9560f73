//! A client whose header line was written, where the journal is full.
ghost use Rattle.filters.specs.Chain.{ChainValue};
ghost use Rattle.std.specs.Prelude.{◌≡◌, IfSome, Some};
ghost use Rattle.serve_client.specs.Rests as rests;
ghost use Rattle.serve_client.specs.Hands.{CanPutOn, CountsImage, EndsImage, IsOfEnding};
ghost use Rattle.serve_client.specs.Streams.{IsOver, Waiting};

use crate::buffers::Buffers;
use crate::clients::stop_after_flush;
use crate::course::Course;
use crate::served::Served;
use crate::stop::{Cause, Stop};
use serve_core::Collected;
use std::marker::Model;
use y4m_stream::{Sink, Source, StreamReader, StreamWriter};

/// A client whose header line was written. Contracts see the `BegunValue` of `specs/Rests.antt`.
#[derive(Drop)]
pub(crate) struct Begun<R: Source, W: Sink> {
    pub(crate) reader: StreamReader<R>,
    pub(crate) writer: StreamWriter<W>,
    pub(crate) buffers: Buffers,
    pub(crate) course: Course,
    pub(crate) accepted: u64,
    pub(crate) collected: u64,
}

impl<R: Source, W: Sink> Model for Begun<R, W> {
    ghost use Rattle.serve_client.specs.Rests.{BegunValue, HasMemoryFor, course_of};

    ghost Value = { BegunValue };

    ghost view = { λ a. record {
      reader = a.reader;
      writer = a.writer;
      course = course_of a.course;
      accepted = a.accepted;
      collected = a.collected;
    } };

    ghost invariant = { λ a. HasMemoryFor a.reader a.writer a.buffers a.course };
}

/// Writes an image in hand to its end, if there is one, however long that takes. It answers `Whole`, or the
/// fault of the write.
fn end_image<W: Sink>(writer: &mut StreamWriter<W>, image: Option<Collected>) -> Stop
    requires { IfSome image (CanPutOn writer.old) }
    ensures ended { (chain : ChainValue) → EndsImage image chain result writer.old writer.new }
    ensures own { IsOfEnding result }
    ensures counts { CountsImage image result writer.old.frames writer.new.frames }
{
    let Some(pair) = image else {
        return Stop::Whole;
    };
    match writer.put_on(&pair.image, None) {
        Ok(_) => Stop::Whole,
        Err(fault) => Stop::Write(fault),
    }
}

impl<R: Source + Drop, W: Sink> Begun<R, W> {
    /// The end of the stream where no epoch comes any more. An image in hand is written to its end first. It
    /// stops for the fault that it keeps, else for that of this write, and else for want of memory.
    pub(crate) fn give_up(self) -> Served<R, W>
        ensures { IsOver (Waiting (rests.Begun self)) result }
    {
        let Begun {
            reader,
            mut writer,
            course,
            accepted,
            ..
        } = self;
        let (kept, image) = course.into_kept();
        let ended = end_image(&mut writer, image);
        let stop = kept.or(ended).or(Stop::Refused(Cause::NoMemory));
        let delivered = writer.frames();
        let (writer, flush) = writer.finish();
        Served {
            accepted,
            delivered,
            charged: 0,
            stop: stop_after_flush(stop, flush),
            source: reader.into_source(),
            writer,
        }
    }
}

/// Whether a client's header line was written.
#[derive(Drop)]
pub(crate) enum State<R: Source, W: Sink> {
    Unbegun(StreamReader<R>, W),
    Begun(Begun<R, W>),
}
