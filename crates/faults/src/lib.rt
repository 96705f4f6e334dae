//! Voices with their print, and the ways in which parts went wrong, each as a test: a voice is engraved and read again, and its print is looked at.
#![tactic(auto)]

#[cfg(test)]
mod tests {
    use engraving::bars_of;
    use readback::read_back;
    use reading::Heard;
    use rows::Rows;
    use score::{Layout, Symbol};
    use std::process::Abort;
    use std::test::Fail;
    use wire::Item;

    // places, of which the last is that of a silence
    const E3: u8 = 23;

    const B3: u8 = 27;

    const C4: u8 = 28;

    const D4: u8 = 29;

    const E4: u8 = 30;

    const F4: u8 = 31;

    const G4: u8 = 32;

    const C5: u8 = 35;

    const E5: u8 = 37;

    const SILENT: u8 = score::SILENT as u8;

    // alterations
    const FLAT: u32 = 1;

    const PLAIN: u32 = 2;

    const SHARP: u32 = 3;

    // signs
    const NONE: u8 = 0;

    const FLAT_SIGN: u8 = 2;

    const NATURAL: u8 = 3;

    const SHARP_SIGN: u8 = 4;

    // whether a head is tied to the next
    const TIED: bool = true;

    const UNTIED: bool = false;

    const BAR: Symbol = Symbol::BarLine;

    fn head(place: u8, sign: u8, value: u16, tied: bool) -> Symbol {
        Symbol::Head {
            place,
            sign,
            value,
            tied,
        }
    }

    fn rest(value: u16) -> Symbol {
        Symbol::Rest { value }
    }

    fn sound(start: u64, length: u64, tone: u64) -> Heard {
        Heard {
            start,
            length,
            tone,
        }
    }

    // whether bytes are just these symbols
    fn are(page: &[u8], symbols: &[Symbol]) -> bool {
        let bytes = page.chunks_exact(Symbol::SIZE);
        bytes.remainder().is_empty()
            && bytes.len() == symbols.len()
            && bytes
                .zip(symbols)
                .all(|(bytes, symbol)| Symbol::read(bytes) == Some(*symbol))
    }

    const NOTHING: Heard = Heard {
        start: 0,
        length: 0,
        tone: 0,
    };

    // a voice in rows, its events as place, alteration and length
    macro_rules! voice {
        ($(($place:expr, $alteration:expr, $length:expr)),*) => {
            Rows {
                places: &[$($place as u32),*],
                alterations: &[$($alteration),*],
                lengths: &[$($length),*],
            }
        };
    }

    // a voice is printed so, and the reader hears so many notes
    fn prints(
        rt: &impl Abort,
        key: u32,
        bar: u32,
        rows: Rows,
        notes: usize,
        symbols: &[Symbol],
    ) -> Result<(), Fail> {
        let mut page = [0; 4096];
        let mut signs = [0; 8];
        let mut heard = [NOTHING; 8];
        let layout = Layout { key, bar };
        let back = read_back(rows, layout, &mut page, &mut signs, &mut heard)?;
        assert_eq!(rt; back.notes, notes);
        let bytes = back.bytes;
        assert!(rt; bytes <= 4096);
        assert!(rt; are(&page[0..bytes], symbols));
        Ok(())
    }

    #[test]
    fn voices_with_their_print(rt: HostRuntime) -> Result<(), Fail> {
        prints(&rt, 7, 192, voice![], 0, &[])?;
        prints(
            &rt,
            7,
            192,
            voice![(C4, PLAIN, 48), (D4, PLAIN, 48), (E4, PLAIN, 96)],
            3,
            &[
                head(C4, NONE, 48, UNTIED),
                head(D4, NONE, 48, UNTIED),
                head(E4, NONE, 96, UNTIED),
                BAR,
            ],
        )?;
        prints(
            &rt,
            7,
            192,
            voice![(F4, SHARP, 96), (F4, SHARP, 48), (F4, PLAIN, 96)],
            3,
            &[
                head(F4, SHARP_SIGN, 96, UNTIED),
                head(F4, NONE, 48, UNTIED),
                head(F4, NATURAL, 48, TIED),
                BAR,
                head(F4, NONE, 48, UNTIED),
            ],
        )?;
        prints(
            &rt,
            8,
            192,
            voice![(F4, SHARP, 96), (F4, PLAIN, 96), (F4, SHARP, 192)],
            3,
            &[
                head(F4, NONE, 96, UNTIED),
                head(F4, NATURAL, 96, UNTIED),
                BAR,
                head(F4, NONE, 192, UNTIED),
                BAR,
            ],
        )
    }

    #[test]
    fn voices_with_their_print_over_bar_lines(rt: HostRuntime) -> Result<(), Fail> {
        prints(
            &rt,
            7,
            144,
            voice![(B3, PLAIN, 120), (SILENT, 0, 60), (E3, FLAT, 48)],
            2,
            &[
                head(B3, NONE, 96, TIED),
                head(B3, NONE, 24, UNTIED),
                rest(24),
                BAR,
                rest(36),
                head(E3, FLAT_SIGN, 48, UNTIED),
            ],
        )?;
        prints(
            &rt,
            7,
            96,
            voice![(C5, SHARP, 240), (C5, PLAIN, 48)],
            2,
            &[
                head(C5, SHARP_SIGN, 96, TIED),
                BAR,
                head(C5, NONE, 96, TIED),
                BAR,
                head(C5, NONE, 48, UNTIED),
                head(C5, NONE, 48, UNTIED),
                BAR,
            ],
        )?;
        prints(
            &rt,
            4,
            192,
            voice![
                (E4, FLAT, 63),
                (E4, PLAIN, 33),
                (E5, FLAT, 48),
                (SILENT, 0, 48),
                (E4, PLAIN, 48)
            ],
            4,
            &[
                head(E4, NONE, 48, TIED),
                head(E4, NONE, 12, TIED),
                head(E4, NONE, 3, UNTIED),
                head(E4, NATURAL, 24, TIED),
                head(E4, NONE, 9, UNTIED),
                head(E5, NONE, 48, UNTIED),
                rest(48),
                BAR,
                head(E4, NATURAL, 48, UNTIED),
            ],
        )?;
        prints(
            &rt,
            7,
            192,
            voice![(SILENT, 0, 192), (G4, PLAIN, 384)],
            1,
            &[
                rest(192),
                BAR,
                head(G4, NONE, 192, TIED),
                BAR,
                head(G4, NONE, 192, UNTIED),
                BAR,
            ],
        )
    }

    #[test]
    fn the_reader_hears_the_voice(rt: HostRuntime) -> Result<(), Fail> {
        let mut page = [0; 4096];
        let mut signs = [0; 4];
        let mut heard = [NOTHING; 4];
        let layout = Layout { key: 7, bar: 192 };
        let rows = voice![(F4, SHARP, 96), (F4, SHARP, 48), (F4, PLAIN, 96)];
        let _back = read_back(rows, layout, &mut page, &mut signs, &mut heard)?;
        assert_eq!(rt;
            heard,
            [
                sound(0, 96, 56),
                sound(96, 48, 56),
                sound(144, 96, 55),
                NOTHING,
            ]
        );
        Ok(())
    }

    #[test]
    fn a_sharp_does_not_hold_behind_a_bar_line_that_had_not_been_there(
        rt: HostRuntime,
    ) -> Result<(), Fail> {
        let rows = voice![(F4, SHARP, 48), (F4, SHARP, 48), (F4, SHARP, 48)];
        prints(
            &rt,
            7,
            192,
            rows,
            3,
            &[
                head(F4, SHARP_SIGN, 48, UNTIED),
                head(F4, NONE, 48, UNTIED),
                head(F4, NONE, 48, UNTIED),
            ],
        )?;
        prints(
            &rt,
            7,
            96,
            rows,
            3,
            &[
                head(F4, SHARP_SIGN, 48, UNTIED),
                head(F4, NONE, 48, UNTIED),
                BAR,
                head(F4, SHARP_SIGN, 48, UNTIED),
            ],
        )
    }

    #[test]
    fn a_tied_notes_sign_is_not_repeated(rt: HostRuntime) -> Result<(), Fail> {
        prints(
            &rt,
            7,
            192,
            voice![(C4, PLAIN, 96), (F4, SHARP, 192)],
            2,
            &[
                head(C4, NONE, 96, UNTIED),
                head(F4, SHARP_SIGN, 96, TIED),
                BAR,
                head(F4, NONE, 96, UNTIED),
            ],
        )
    }

    #[test]
    fn the_place_of_a_tied_note_is_not_altered_for_the_rest_of_the_new_bar(
        rt: HostRuntime,
    ) -> Result<(), Fail> {
        prints(
            &rt,
            7,
            96,
            voice![(C5, SHARP, 144), (C5, PLAIN, 24), (C5, SHARP, 24)],
            3,
            &[
                head(C5, SHARP_SIGN, 96, TIED),
                BAR,
                head(C5, NONE, 48, UNTIED),
                head(C5, NONE, 24, UNTIED),
                head(C5, SHARP_SIGN, 24, UNTIED),
                BAR,
            ],
        )
    }

    #[test]
    fn a_natural_is_not_left_out_because_another_voice_had_one(
        rt: HostRuntime,
    ) -> Result<(), Fail> {
        let natural = [
            head(F4, NATURAL, 96, UNTIED),
            head(F4, NONE, 96, UNTIED),
            BAR,
        ];
        prints(
            &rt,
            8,
            192,
            voice![(F4, PLAIN, 96), (F4, PLAIN, 96)],
            2,
            &natural,
        )?;
        prints(
            &rt,
            8,
            192,
            voice![(F4, PLAIN, 96), (F4, PLAIN, 96)],
            2,
            &natural,
        )
    }

    #[test]
    fn bars_after_a_change_are_not_kept_if_something_is_tied_into_them(
        rt: HostRuntime,
    ) -> Result<(), Fail> {
        let mut before = [0; 4096];
        let mut after = [0; 4096];
        let mut signs = [0; 8];
        let mut heard = [NOTHING; 8];
        let layout = Layout { key: 7, bar: 192 };
        let rows = voice![
            (G4, PLAIN, 96),
            (E4, PLAIN, 192),
            (C4, PLAIN, 96),
            (D4, PLAIN, 192)
        ];
        let changed = voice![
            (G4, PLAIN, 96),
            (F4, PLAIN, 192),
            (C4, PLAIN, 96),
            (D4, PLAIN, 192)
        ];
        let _back = read_back(rows, layout, &mut before, &mut signs, &mut heard)?;
        let _back = read_back(changed, layout, &mut after, &mut signs, &mut heard)?;
        assert!(rt;
            are(
                bars_of(&before, 1, 1),
                &[head(E4, NONE, 96, UNTIED), head(C4, NONE, 96, UNTIED), BAR],
            )
        );
        assert!(rt;
            are(
                bars_of(&after, 1, 1),
                &[head(F4, NONE, 96, UNTIED), head(C4, NONE, 96, UNTIED), BAR],
            )
        );
        assert!(rt; are(bars_of(&before, 2, 1), &[head(D4, NONE, 192, UNTIED), BAR]));
        assert!(rt; are(bars_of(&after, 2, 1), &[head(D4, NONE, 192, UNTIED), BAR]));
        Ok(())
    }

    #[test]
    fn rests_are_cut_anew_where_notes_were(rt: HostRuntime) -> Result<(), Fail> {
        prints(
            &rt,
            7,
            192,
            voice![(C4, PLAIN, 36), (D4, PLAIN, 12)],
            2,
            &[head(C4, NONE, 36, UNTIED), head(D4, NONE, 12, UNTIED)],
        )?;
        prints(&rt, 7, 192, voice![(SILENT, 0, 48)], 0, &[rest(48)])
    }
}
