//! The forms of statements, as a line that refuses one names them.

/// The form of the statements that begin with the line's first word; where there is none, the forms
/// of all statements.
pub fn form_of(line: &str) -> &'static str {
    let first = line.split(' ').next();
    match first {
        Some(word) => form_after(word),
        None => ALL_FORMS,
    }
}

/// The form of the statements that begin with this word, or all forms.
fn form_after(word: &str) -> &'static str {
    match word {
        "pages" => "pages N ..",
        "guest" => "guest I",
        "begin" => "begin I",
        "write" => "write AT HEX",
        "grow" => "grow N",
        "call" => "call F V .., each V i32:N or i64:N",
        "return" => "return V .., each V i32:N or i64:N",
        "unreachable" => "unreachable",
        _ => ALL_FORMS,
    }
}

const ALL_FORMS: &str =
    "pages N .., guest I, begin I, write AT HEX, grow N, call F V .., return V .. \
    or unreachable";
