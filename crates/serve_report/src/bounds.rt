//! What a run asks of the types whose values it lends or hands to its threads.

use serve_watch::Watch;
use std::io::Read;
use y4m_stream::Source;

/// A reader that goes to another thread.
pub(crate) trait SentReader: Read + Drop + Send {}

impl<R: Read + Drop + Send> SentReader for R {}

/// A source that goes to another thread.
pub(crate) trait SentSource: Source + Drop + Send {}

impl<R: Source + Drop + Send> SentSource for R {}

/// A watch that is lent to threads.
pub(crate) trait LentWatch: Watch + Sync {}

impl<V: Watch + Sync> LentWatch for V {}
