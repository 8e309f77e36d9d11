// A recorded answer of translating or of lookup, held to what the library gives.
#![tactic(auto)]

// A line offset, a source offset, a name offset, tokens. The tokens after it.
pub fn translate_agrees(numbers: &mut [u32], text: &[u8]) -> bool {
    let [line, source, name, table @ ..] = numbers else {
        return false;
    };
    let mut want = replay::sevens();
    let n = replay::numbers(text, &mut want);
    replay::answers(translate::translate(table, *line, *source, *name), 0, 0)
        && table[..] == want[..n]
}

// A line, a column, the index of the token there, tokens. Nothing.
pub fn lookup_agrees(numbers: &[u32]) -> bool {
    let [line, col, index, table @ ..] = numbers else {
        return false;
    };
    let a = lookup::found_out(lookup::lookup_token(table, *line, *col));
    a.code == 0 && a.number == replay::wide(*index)
}
