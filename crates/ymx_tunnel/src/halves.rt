//! The halves of a stream as the ends of a copy. Their seats tell the bytes: with the recorder `Full` by their entries, with
//! `Witnessed` by their own in the history that they have seen. With `Off` they tell none.

ghost use Rattle.ymx_hub.specs.Books.{Books, Spends, to_finish, to_reset};
ghost use Rattle.ymx_hub.specs.Carried.{bytes_written, read_bytes};
ghost use Rattle.ymx_tunnel.specs.Told.{own_entries, carried, SaidEnd, ToldRefusal};

use crate::ends::{Sink, Source};
use std::sync::Wait;
use ymx_hub::{HubFault, ReadHalf, Recorder, Seat, WriteFault, WriteHalf};

impl<R: Recorder> Sink for WriteHalf<R> {
    type Left = Seat<R>;

    ghost taken = { λ half. carried bytes_written (own_entries R.KEEPS half.seat) };

    ghost taken_in_all = { λ seat. carried bytes_written (own_entries R.KEEPS seat) };

    ghost HasRefused = { λ half fault. ToldRefusal fault (own_entries R.KEEPS half.seat) };

    ghost Finishes = { λ half seat answer. Books R.KEEPS half.seat seat (Spends (to_finish half.id) half.id half.seat.number answer) };

    ghost Resets = { λ half seat answer. Books R.KEEPS half.seat seat (Spends (to_reset half.id) half.id half.seat.number answer) };

    fn write_all<W: Wait>(&mut self, rt: &W, bytes: &[u8]) -> Result<(), WriteFault> {
        WriteHalf::write_all(self, rt, bytes)
    }

    fn finish<W: Wait>(self, rt: &W) -> (Seat<R>, Result<(), HubFault>) {
        WriteHalf::finish(self, rt)
    }

    fn reset<W: Wait>(self, rt: &W) -> (Seat<R>, Result<(), HubFault>) {
        WriteHalf::reset(self, rt)
    }
}

impl<R: Recorder> Source for ReadHalf<R> {
    type Left = Seat<R>;

    ghost given = { λ half. carried read_bytes (own_entries R.KEEPS half.seat) };

    ghost given_in_all = { λ seat. carried read_bytes (own_entries R.KEEPS seat) };

    ghost HasEnded = { λ half. SaidEnd (own_entries R.KEEPS half.seat) };

    ghost EndedBefore = { λ seat. SaidEnd (own_entries R.KEEPS seat) };

    ghost HasRefused = { λ half fault. ToldRefusal fault (own_entries R.KEEPS half.seat) };

    ghost RefusedBefore = { λ seat fault. ToldRefusal fault (own_entries R.KEEPS seat) };

    fn read<W: Wait>(&mut self, rt: &W, buffer: &mut [u8]) -> Result<usize, HubFault> {
        ReadHalf::read(self, rt, buffer)
    }

    fn close<W: Wait>(self, rt: &W) -> (Seat<R>, Result<(), HubFault>) {
        ReadHalf::close(self, rt)
    }
}
