//! A value in a box under a lock: a turn then moves a pointer, and not the value.
use crate::calls::{Closed, OpenClientError, Told};
use crate::serves::{Recorded, Serves};
use tab_bytes::Buffer;

impl<B: Recorded> Recorded for Box<B> {
    ghost history = { λ b. B.history b.value };

    ghost legal = { B.legal };

    ghost fixed = { λ b. B.fixed b.value };

    ghost wrong = { λ b. B.wrong b.value };

    fn entries(&self) -> u64 {
        self.as_ref().entries()
    }
}

impl<B: Serves> Serves for Box<B> {
    fn open_client(&mut self) -> Result<u32, OpenClientError> {
        self.as_mut().open_client()
    }

    fn command(&mut self, client: u32, number: u64, bytes: &[u8], reply: &mut Buffer) -> Told {
        self.as_mut().command(client, number, bytes, reply)
    }

    fn cancel(
        &mut self,
        client: u32,
        number: u64,
        bytes: &[u8],
        upto: u64,
        reply: &mut Buffer,
    ) -> Told {
        self.as_mut().cancel(client, number, bytes, upto, reply)
    }

    fn close_client(&mut self, client: u32) -> Closed {
        self.as_mut().close_client(client)
    }

    fn show_legal(&self) {
        self.as_ref().show_legal();
    }
}
