// Standard output, by the kit's `io`. A write that fails is passed over: what follows is written all the same.
use arrayvec::ArrayVec;
use std::fmt;

const STDOUT: i32 = 1;

// Room for what waits to be written.
const ROOM: usize = 512;

#[derive(Drop)]
pub(crate) struct Output {
    waiting: ArrayVec<u8, ROOM>,
}

impl Output {
    pub(crate) fn new() -> Output {
        Output {
            waiting: ArrayVec::new(),
        }
    }

    // Bytes that need not be text.
    pub(crate) fn write_bytes(&mut self, bytes: &[u8]) {
        if self.waiting.remaining_capacity() < bytes.len() {
            self.flush();
        }
        // What is longer than the room does not wait.
        if self.waiting.try_extend_from_slice(bytes).is_err() {
            io::write_all(STDOUT, bytes);
        }
    }

    // Writes what waits.
    pub(crate) fn flush(&mut self) {
        io::write_all(STDOUT, &self.waiting);
        self.waiting.clear();
    }
}

// It answers no error.
impl fmt::Write for Output {
    fn write_str(&mut self, text: &str) -> fmt::Result {
        self.write_bytes(text.as_bytes());
        Ok(())
    }
}
