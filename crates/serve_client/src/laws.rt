//! What follows from the definitions alone.
ghost use Rattle.serve_client.specs.Epochs.{NewStreamIsUnbegun, StreamsCross};
ghost use Rattle.serve_client.specs.Laws.{AFrontIsOut, AFrontWentOut, InputFaultIsTold, InputIsServed};

/// Where a reader was opened on an input and a client has ended, or its stream was given up, a stream text of
/// the accepted frames stands at the front of the input. Where the stop is `Whole`, that is the whole input,
/// and what it is served as was written.
pub fn the_input_is_served()
    ensures { InputIsServed }
{}

/// Where a fault lies in the bytes behind the accepted frames, a client that began to read tells it, or a
/// fault of the reader that isn't in the bytes; or a fault of the writer or a `Torn`, which hides it. Where its
/// stream was given up before it was closed, as it may be in a session that was cut, the fault may be told as
/// want of memory.
pub fn an_input_fault_is_told()
    ensures { InputFaultIsTold }
{}

/// What a client wrote is a front of what the accepted frames are served as.
pub fn a_front_went_out()
    ensures { AFrontWentOut }
{}

/// Where a client pauses, a front went out of what the frames are served as that were accepted by then; and
/// nothing, where nothing was done of its stream.
pub fn a_front_is_out()
    ensures { AFrontIsOut }
{}

/// Of the stream of a new seat all is left to do.
pub fn a_new_stream_is_unbegun()
    ensures { NewStreamIsUnbegun }
{}

/// What is left to do of a stream is left to do by its seat of the next epoch, and what it came to stays.
pub fn streams_cross()
    ensures { StreamsCross }
{}
