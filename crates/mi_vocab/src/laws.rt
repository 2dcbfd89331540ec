//! A law of the layout, on a call that does nothing.
ghost use Rattle.std.specs.Prelude.{◌≡◌, ◌+◌, ◌*◌, ℕ, ◌<◌};
ghost use Rattle.mi_model.specs.Layout as offsets;
ghost use Rattle.mi_model.specs.Seed as seeds;
ghost use Rattle.mi_vocab.specs.declared.layout.TheConstants.{DP, BASE, STATE, TO_IN, SOURCE_ADDRESS, SOURCE_LENGTH, SOURCE_NUMBER, CURRENT, LATEST, LEAVES, HLD, ENTRY, ORDER_COUNT, ORDER, FORTH_WORDLIST, VOC, INTERPRETER_LOOP, BYE_AFTER_ENTRY, STRING_TURN, LINE_BUFFER, HOLD_END, WORD_BUFFER, STRING_BUFFER_FIRST, STRING_BUFFER_SECOND, DICTIONARY, HEADER_SIZE};

/// The offsets of the cells of the system, of the buffers and of the headers are those that the definitions name.
pub fn layout_is_the_definition()
    ensures cells { (DP ≡ offsets.dp_cell) × (BASE ≡ offsets.base_cell) × (STATE ≡ offsets.state_cell) × (TO_IN ≡ offsets.in_cell) × (CURRENT ≡ offsets.current_cell)
        × (LATEST ≡ offsets.latest_cell) × (LEAVES ≡ offsets.leaves_cell) × (HLD ≡ offsets.hld_cell) × (ENTRY ≡ offsets.entry_cell) × (VOC ≡ offsets.voc_cell)
        × (FORTH_WORDLIST ≡ offsets.forth_wordlist) × (STRING_TURN ≡ offsets.string_turn_cell) }
    ensures source { (SOURCE_ADDRESS ≡ offsets.source_address_cell) × (SOURCE_LENGTH ≡ offsets.source_length_cell) × (SOURCE_NUMBER ≡ offsets.source_number_cell) }
    ensures order { (ORDER_COUNT ≡ offsets.order_count_cell) × ((i : ℕ) → ORDER + 8 * i ≡ offsets.order_cell i) }
    ensures interpreter { (INTERPRETER_LOOP ≡ offsets.interpreter_loop) × (BYE_AFTER_ENTRY ≡ offsets.after_entry) }
    ensures buffers { (LINE_BUFFER ≡ offsets.line_buffer) × (HOLD_END ≡ offsets.hold_end) × (WORD_BUFFER ≡ offsets.word_buffer)
        × (STRING_BUFFER_FIRST ≡ offsets.first_string_buffer) × (STRING_BUFFER_SECOND ≡ offsets.second_string_buffer) }
    ensures headers { (DICTIONARY ≡ offsets.dictionary) × ((tag : ℕ) → DICTIONARY + HEADER_SIZE * tag ≡ seeds.header_offset tag) }
{}
