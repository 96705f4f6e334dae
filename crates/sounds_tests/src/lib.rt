//! Tests of what is heard, in a crate of their own, since a crate with tests is proved twice.
#![tactic(auto)]

ghost use Rattle.std.specs.Prelude.{◌≡◌};
ghost use Rattle.memory.specs.Store.{limit_in};
ghost use Rattle.memory.specs.Words.{Holds};

#[cfg(test)]
mod tests {
    use score::Sound;
    use sounds::{heard, heard_in};
    use voices::Stored;
    use wire::Item;

    // A score of four voices: c4, d4 and e4; nothing; a silence and g4; e4, a long silence and c4.
    fn score() -> [u32; 61]
        ensures holds { Holds result }
        ensures limit { limit_in result ≡ 8 }
    {
        [
            7, 192, 4, 8, // the header
            3, 0, 2, 3, 192, 0, 96, 1584, // counts and ticks
            28, 29, 30, 70, 32, 30, 70, 28, // places
            2, 2, 2, 0, 2, 2, 0, 2, // alterations
            48, 48, 96, 48, 48, 96, 1440, 48, // lengths
            0, 0, 0, 0, 0, 0, 0, 8, // bars
            0, 48, 96, 0, 48, 0, 96, 0, // ticks of the bars
            0, 0, 0, 0, 0, 0, 0, 0, // signs
            0, // marks
        ]
    }

    fn note(voice: u8, start: u32, length: u16, tone: u8) -> Option<Sound> {
        Some(Sound {
            voice,
            start,
            length,
            tone,
        })
    }

    #[test]
    fn together_by_time_and_voice(rt: HostRuntime) {
        let words = score();
        let score = Stored::of(&words);
        let mut out = [255; 64];
        assert_eq!(rt; heard_in(score, 0, 1536, &mut out), 5);
        assert_eq!(rt; Sound::read(&out[0..]), note(0, 0, 48, 50));
        assert_eq!(rt; Sound::read(&out[8..]), note(3, 0, 96, 54));
        assert_eq!(rt; Sound::read(&out[16..]), note(0, 48, 48, 52));
        assert_eq!(rt; Sound::read(&out[24..]), note(2, 48, 48, 57));
        assert_eq!(rt; Sound::read(&out[32..]), note(0, 96, 96, 54));
        assert_eq!(rt; out[40], 255);
    }

    #[test]
    fn spans_of_all_kinds(rt: HostRuntime) {
        let words = score();
        let score = Stored::of(&words);
        let mut out = [255; 64];
        assert_eq!(rt; heard_in(score, 48, 48, &mut out), 0);
        assert_eq!(rt; heard_in(score, 96, 48, &mut out), 0);
        assert_eq!(rt; heard_in(score, 5000, 6536, &mut out), 0);
        assert_eq!(rt; heard_in(score, 4294967295, 4294967295, &mut out), 0);
        assert_eq!(rt; out[0], 255);
        assert_eq!(rt; heard_in(score, 47, 49, &mut out), 2);
        assert_eq!(rt; Sound::read(&out[8..]), note(2, 48, 48, 57));
        assert_eq!(rt; heard_in(score, 1536, 3072, &mut out), 1);
        assert_eq!(rt; Sound::read(&out[0..]), note(3, 1536, 48, 50));
    }

    // The last note of a voice.
    fn last_of(score: Stored<'_>, voice: u32) -> Option<Sound> {
        heard(score, voice)?.last()
    }

    #[test]
    fn one_voice(rt: HostRuntime) {
        let words = score();
        let score = Stored::of(&words);
        assert_eq!(rt; last_of(score, 0), note(0, 96, 96, 54));
        assert_eq!(rt; last_of(score, 1), None);
        assert_eq!(rt; last_of(score, 3), note(3, 1536, 48, 50));
        assert_eq!(rt; last_of(score, 4), None);
    }
}
