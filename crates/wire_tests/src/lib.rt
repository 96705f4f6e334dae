//! Tests of calls and answers as bytes, in a crate of their own, since a crate with tests is proved twice.
#![tactic(auto)]

ghost use Rattle.std.specs.Prelude.{◌<◌, ◌≤◌, length};

#[cfg(test)]
mod tests {
    use score::{Call, Event, Refusal, Sound, Symbol};
    use std::process::Abort;
    use wire::{Item, read_call, write_call};

    // A call, and its bytes.
    #[derive(Clone, Copy)]
    struct Row {
        call: Call,
        bytes: &'static [u8],
    }

    fn rows() -> [Row; 8] {
        let note = Event::Note {
            place: 31,
            alteration: 3,
            length: 96,
        };
        let silence = Event::Silence { length: 300 };
        [
            Row {
                call: Call::Put {
                    voice: 1,
                    index: 258,
                    event: note,
                },
                bytes: &[0, 1, 0, 0, 0, 2, 1, 0, 0, 0, 31, 3, 96, 0],
            },
            Row {
                call: Call::Put {
                    voice: 0,
                    index: 65536,
                    event: silence,
                },
                bytes: &[0, 0, 0, 0, 0, 0, 0, 1, 0, 1, 0, 0, 44, 1],
            },
            Row {
                call: Call::Cut {
                    voice: 63,
                    index: 16777216,
                },
                bytes: &[1, 63, 0, 0, 0, 0, 0, 0, 1],
            },
            Row {
                call: Call::Change {
                    voice: 2,
                    index: 7,
                    event: note,
                },
                bytes: &[2, 2, 0, 0, 0, 7, 0, 0, 0, 0, 31, 3, 96, 0],
            },
            Row {
                call: Call::Change {
                    voice: 2,
                    index: 7,
                    event: silence,
                },
                bytes: &[2, 2, 0, 0, 0, 7, 0, 0, 0, 1, 0, 0, 44, 1],
            },
            Row {
                call: Call::Show {
                    voice: 5,
                    bar: 1000,
                    count: 16,
                },
                bytes: &[3, 5, 0, 0, 0, 232, 3, 0, 0, 16, 0, 0, 0],
            },
            Row {
                call: Call::HeardIn {
                    from: 4294967295,
                    to: 1536,
                },
                bytes: &[4, 255, 255, 255, 255, 0, 6, 0, 0],
            },
            Row {
                call: Call::HowLong { voice: 3 },
                bytes: &[5, 3, 0, 0, 0],
            },
        ]
    }

    // A row with zeros behind it.
    fn padded(bytes: &[u8]) -> [u8; 15]
        requires { length bytes.now ≤ 15 }
    {
        let mut row = [0; 15];
        row[..bytes.len()].copy_from_slice(bytes);
        row
    }

    // A row with another byte in one place.
    fn changed(mut bytes: [u8; 15], place: usize, byte: u8) -> [u8; 15]
        requires { place < 15 }
    {
        bytes[place] = byte;
        bytes
    }

    // Each call is written and read as its row; cut short at any length it ends too early there, and a byte too many is refused where it stands.
    #[test]
    fn calls_and_parts_of_them(rt: HostRuntime) {
        for Row { call, bytes } in rows() {
            let length = bytes.len();
            assert!(rt; length < 15);
            let row = padded(bytes);
            let mut out = [0; 15];
            assert_eq!(rt; write_call(&mut out, call), length);
            assert_eq!(rt; out, row);
            assert_eq!(rt; read_call(bytes), Ok(call));
            for end in 0..length {
                assert_eq!(rt;
                    read_call(&bytes[0..end]),
                    Err(Refusal::Unreadable(end as u32))
                );
            }
            assert_eq!(rt;
                read_call(&row[0..length + 1]),
                Err(Refusal::Unreadable(length as u32))
            );
        }
    }

    // A number that no call has is refused at the first byte, a kind that no event has at its own; and of a silence two bytes may be anything.
    #[test]
    fn numbers_and_kinds_out_of_range(rt: HostRuntime) {
        for Row { call, bytes } in rows() {
            assert!(rt; bytes.len() < 15);
            let row = padded(bytes);
            for other in 6..=255 {
                assert_eq!(rt;
                    read_call(&changed(row, 0, other)),
                    Err(Refusal::Unreadable(0))
                );
            }
            if bytes.len() < 14 {
                continue;
            }
            for other in 2..=255 {
                assert_eq!(rt;
                    read_call(&changed(row, 9, other)),
                    Err(Refusal::Unreadable(9))
                );
            }
            if row[9] == 1 {
                let other = changed(changed(row, 10, 70), 11, 255);
                assert_eq!(rt; read_call(&other[0..14]), Ok(call));
            }
        }
    }

    // An item is written and read as its row, and is none where the row is cut short.
    fn written_and_read<T: Item + PartialEq>(rt: &impl Abort, item: T, row: &[u8]) {
        assert!(rt; T::SIZE == row.len() && row.len() <= 8);
        let mut out = [9; 8];
        let part = &mut out[..row.len()];
        assert_eq!(rt; item.write(part), row.len());
        assert_eq!(rt; &out[..row.len()], row);
        assert!(rt; T::read(row) == Some(item));
        for end in 0..row.len() {
            assert!(rt; T::read(&row[0..end]).is_none());
        }
    }

    // Symbols and sounds are written and read as their rows, and are none where a row is cut short or a kind is unknown.
    #[test]
    fn symbols_and_sounds(rt: HostRuntime) {
        let tied = Symbol::Head {
            place: 31,
            sign: 4,
            value: 144,
            tied: true,
        };
        let plain = Symbol::Head {
            place: 28,
            sign: 0,
            value: 192,
            tied: false,
        };
        written_and_read(&rt, Symbol::BarLine, &[0, 0, 0, 0, 0]);
        written_and_read(&rt, plain, &[1, 28, 0, 192, 0]);
        written_and_read(&rt, tied, &[2, 31, 4, 144, 0]);
        written_and_read(&rt, Symbol::Rest { value: 65535 }, &[3, 0, 0, 255, 255]);
        for kind in 4..=255 {
            assert_eq!(rt; Symbol::read(&[kind, 28, 0, 192, 0]), None);
        }
        let sound = Sound {
            voice: 63,
            start: 16777215,
            length: 300,
            tone: 112,
        };
        written_and_read(&rt, sound, &[63, 112, 255, 255, 255, 0, 44, 1]);
    }
}
