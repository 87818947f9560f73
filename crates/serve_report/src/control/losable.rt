//! A sink whose stream is told where it was lost.
ghost use Rattle.std.specs.Prelude.{◌≡◌};

use super::order::Order;
use std::alloc::Global;
use std::io;
use std::sync::Arc;
use y4m_stream::Sink;

/// The sink of an order. Where a write fails, that is noted there.
#[derive(Drop)]
pub struct Losable<W: Sink> {
    sink: W,
    order: Arc<Order, Global>,
}

impl<W: Sink> Losable<W> {
    pub fn new(sink: W, order: Arc<Order, Global>) -> Losable<W>
        ensures { result.sink ≡ sink }
    {
        Losable { sink, order }
    }
}

impl<W: Sink> Sink for Losable<W> {
    ghost contents = { λ s. W.contents s.sink };

    ghost failures = { λ s. W.failures s.sink };

    ghost is_flushed = { λ s. W.is_flushed s.sink };

    fn write(&mut self, buf: &[u8]) -> io::Result<usize> {
        let answer = self.sink.write(buf);
        let is_lost = match &answer {
            Ok(taken) => *taken == 0 && !buf.is_empty(),
            Err(_) => true,
        };
        if is_lost {
            self.order.lose_output();
        }
        answer
    }

    fn try_write(&mut self, buf: &[u8], milliseconds: u64) -> io::Result<Option<usize>> {
        let answer = self.sink.try_write(buf, milliseconds);
        let is_lost = match &answer {
            Ok(Some(taken)) => *taken == 0 && !buf.is_empty(),
            Ok(None) => false,
            Err(_) => true,
        };
        if is_lost {
            self.order.lose_output();
        }
        answer
    }

    fn flush(&mut self) -> io::Result<()> {
        self.sink.flush()
    }

    fn image_ended(&mut self) {
        self.sink.image_ended();
        self.order.image_ended();
    }
}
