//! The records of a trace: objects of the Trace Event Format. Times are microseconds from its start.
//! A name is a stream's, of letters, digits, `_` and `-` alone, so that none needs an escape.
use std::fmt;

/// The name of a worker's lane.
#[derive(Clone, Copy)]
pub struct WorkerName {
    pub lane: u64,
    pub number: u64,
}

impl fmt::Display for WorkerName {
    ghost use Rattle.std.specs.Prelude.{Some};
    ghost use Rattle.serve_watch.specs.Trace.{worker_text};

    ghost output = { λ worker. Some (worker_text worker) };

    fn fmt<W: fmt::Write>(&self, f: &mut fmt::Formatter<W>) -> fmt::Result {
        let WorkerName { lane, number } = *self;
        write!(
            f,
            r#"{{"name":"thread_name","ph":"M","pid":1,"tid":{lane},"args":{{"name":"worker {number}"}}}}"#
        )
    }
}

/// The name of a stream's lane.
#[derive(Clone, Copy)]
pub struct StreamName<'a> {
    pub lane: u64,
    pub name: &'a str,
}

impl fmt::Display for StreamName<'_> {
    ghost use Rattle.std.specs.Prelude.{Some};
    ghost use Rattle.serve_watch.specs.Trace.{stream_text};

    ghost output = { λ stream. Some (stream_text stream) };

    fn fmt<W: fmt::Write>(&self, f: &mut fmt::Formatter<W>) -> fmt::Result {
        let StreamName { lane, name } = *self;
        write!(
            f,
            r#"{{"name":"thread_name","ph":"M","pid":2,"tid":{lane},"args":{{"name":"{name}"}}}}"#
        )
    }
}

/// A lease, of frame `number` of the stream of this name, in this epoch.
#[derive(Clone, Copy)]
pub struct Leased<'a> {
    pub lane: u64,
    pub name: &'a str,
    pub number: u64,
    pub begin: u64,
    pub time: u64,
    pub bands: u32,
    pub units: u32,
    pub epoch: u64,
}

impl fmt::Display for Leased<'_> {
    ghost use Rattle.std.specs.Prelude.{Some};
    ghost use Rattle.serve_watch.specs.Trace.{leased_text};

    ghost output = { λ leased. Some (leased_text leased) };

    fn fmt<W: fmt::Write>(&self, f: &mut fmt::Formatter<W>) -> fmt::Result {
        let Leased {
            lane,
            name,
            number,
            begin,
            time,
            bands,
            units,
            epoch,
        } = *self;
        write!(
            f,
            "{{\"name\":\"{name} {number}\",\"ph\":\"X\",\"pid\":1,\"tid\":{lane},\
            \"ts\":{begin},\"dur\":{time},\
            \"args\":{{\"bands\":{bands},\"units\":{units},\"epoch\":{epoch}}}}}"
        )
    }
}

/// What a client does: it reads, or looks whether it can; it waits for anything else; or it writes.
#[derive(Clone, Copy, PartialEq, Eq)]
pub enum Doing {
    Reading,
    Waiting,
    Writing,
}

impl fmt::Display for Doing {
    ghost use Rattle.std.specs.Prelude.{Some};
    ghost use Rattle.serve_watch.specs.Trace.{doing_word};

    ghost output = { λ doing. Some (doing_word doing) };

    fn fmt<W: fmt::Write>(&self, f: &mut fmt::Formatter<W>) -> fmt::Result {
        match self {
            Doing::Reading => write!(f, "reading"),
            Doing::Waiting => write!(f, "waiting"),
            Doing::Writing => write!(f, "writing"),
        }
    }
}

/// What the client of a stream does for a time.
#[derive(Clone, Copy)]
pub struct Client {
    pub lane: u64,
    pub doing: Doing,
    pub begin: u64,
    pub time: u64,
}

impl fmt::Display for Client {
    ghost use Rattle.std.specs.Prelude.{Some};
    ghost use Rattle.serve_watch.specs.Trace.{client_text};

    ghost output = { λ client. Some (client_text client) };

    fn fmt<W: fmt::Write>(&self, f: &mut fmt::Formatter<W>) -> fmt::Result {
        let Client {
            lane,
            doing,
            begin,
            time,
        } = *self;
        write!(
            f,
            r#"{{"name":"{doing}","ph":"X","pid":2,"tid":{lane},"ts":{begin},"dur":{time}}}"#
        )
    }
}

/// How many frames of a stream aren't finished, and how many of its images wait to be written.
#[derive(Clone, Copy)]
pub struct Frames<'a> {
    pub name: &'a str,
    pub at: u64,
    pub unfinished: u64,
    pub waiting: u64,
}

impl fmt::Display for Frames<'_> {
    ghost use Rattle.std.specs.Prelude.{Some};
    ghost use Rattle.serve_watch.specs.Trace.{frames_text};

    ghost output = { λ frames. Some (frames_text frames) };

    fn fmt<W: fmt::Write>(&self, f: &mut fmt::Formatter<W>) -> fmt::Result {
        let Frames {
            name,
            at,
            unfinished,
            waiting,
        } = *self;
        write!(
            f,
            "{{\"name\":\"{name} frames\",\"ph\":\"C\",\"pid\":2,\"ts\":{at},\
            \"args\":{{\"unfinished\":{unfinished},\"waiting\":{waiting}}}}}"
        )
    }
}

/// How far a deadline lies ahead of the clock, or behind it.
#[derive(Clone, Copy)]
pub struct Lead {
    pub deadline: u64,
    pub clock: u64,
}

impl fmt::Display for Lead {
    ghost use Rattle.std.specs.Prelude.{Some};
    ghost use Rattle.serve_watch.specs.Trace.{lead_text};

    ghost output = { λ lead. Some (lead_text lead) };

    fn fmt<W: fmt::Write>(&self, f: &mut fmt::Formatter<W>) -> fmt::Result {
        let Lead { deadline, clock } = *self;
        if clock <= deadline {
            let moments = deadline - clock;
            write!(f, "{moments}")
        } else {
            let moments = clock - deadline;
            write!(f, "-{moments}")
        }
    }
}

/// How far a stream's deadline lies ahead.
#[derive(Clone, Copy)]
pub struct Leads<'a> {
    pub name: &'a str,
    pub at: u64,
    pub lead: Lead,
}

impl fmt::Display for Leads<'_> {
    ghost use Rattle.std.specs.Prelude.{Some};
    ghost use Rattle.serve_watch.specs.Trace.{leads_text};

    ghost output = { λ leads. Some (leads_text leads) };

    fn fmt<W: fmt::Write>(&self, f: &mut fmt::Formatter<W>) -> fmt::Result {
        let Leads { name, at, lead } = *self;
        write!(
            f,
            r#"{{"name":"{name} deadline","ph":"C","pid":2,"ts":{at},"args":{{"moments":{lead}}}}}"#
        )
    }
}
