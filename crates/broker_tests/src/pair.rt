//! A broker over the device in memory, beside the machine that its clients see.
use crate::clients::{AMPLE, coded, new_world, open, run_both};
use crate::driver::Clients;
use broker_core::Closed;
use device_port::Device;
use plain_machine::World;
use std::alloc::Global;
use std::test::Fail;
use tab_bytes::Buffer;
use tab_spec::Numbers;

// Both have the same clients.
pub(crate) struct Pair {
    clients: Clients,
    world: World,
    wanted: Buffer,
}

impl Pair {
    // Over a device of these numbers, with so many clients. There is none where memory lacks.
    pub(crate) fn begin(alloc: Global, numbers: Numbers, count: u32) -> Result<Pair, Fail> {
        let world = new_world(alloc, count)?;
        let wanted = Buffer::new(alloc)?;
        let mut clients = Clients::begin(alloc, numbers, Vec::new(alloc), AMPLE).ok_or(
            "the broker begins",
        )?;
        let _ = open(&mut clients, count);
        Ok(Pair {
            clients,
            world,
            wanted,
        })
    }

    // Whether both answer a command alike.
    fn agrees(&mut self, client: u32, command: &[u8]) -> bool {
        run_both(
            &mut self.clients,
            &mut self.world,
            client,
            command,
            &mut self.wanted,
        ) == Some(0)
    }

    // Whether both answer a command alike, by bytes that begin so.
    pub(crate) fn answers(&mut self, client: u32, command: &[u8], begin: &[u8]) -> bool {
        self.agrees(client, command) && self.reply().starts_with(begin)
    }

    // Whether both answer a command by this code alone.
    pub(crate) fn tells(&mut self, client: u32, command: &[u8], code: u32) -> bool {
        self.answers(client, command, &coded(code))
    }

    // Whether both answer a command of the first client alike, by a success, and the device is sent
    // so many commands for it.
    pub(crate) fn sends(&mut self, command: &[u8], count: u64) -> bool {
        let before = self.clients.sent();
        let succeeds = self.agrees(0, command)
            && self.reply().get(6..10) == Some([0; 4].as_slice());
        succeeds && self.clients.sent().checked_sub(before) == Some(count)
    }

    // Closes the first client; whether nothing of it is an orphan.
    pub(crate) fn closes(&mut self) -> bool {
        if !self.world.is_open(0) {
            return false;
        }
        self.world.close_client(0);
        self.clients.close() == Some(Closed::Clean)
    }

    // What the last command was told.
    pub(crate) fn reply(&self) -> &[u8] {
        self.clients.reply()
    }

    // How many commands the device was sent.
    pub(crate) fn finish(self) -> u64 {
        let Pair {
            clients,
            world: _,
            wanted: _,
        } = self;
        let (device, _) = clients.finish();
        device.sent_count()
    }
}
