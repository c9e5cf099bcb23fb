//! The text that `gen` makes.

ghost use Rattle.std.specs.Prelude.{◌≡◌, ◌++◌, ◌-◌, ◌≤◌, OnOk, IfOk, flat_map, string_bytes};
ghost use Rattle.std.specs.List.{range_with_len};
ghost use Rattle.command.specs.Generated.{attribute, function_line, call_line, generated_text};

use itoa::Buffer;
use std::alloc::{AllocError, Global};

// Appends the pieces.
fn append(text: &mut String, pieces: &[&str]) -> Result<(), AllocError>
    ensures { OnOk result (string_bytes text.new ≡ string_bytes text.old ++ flat_map (λ piece. piece.now) pieces.now) }
{
    'each: for piece in pieces {
        text.push_str(piece)?;
    }
    Ok(())
}

fn attribute(number: u32) -> &'static str
    ensures { result.now ≡ attribute number }
{
    if number % 4 == 3 {
        " [[clang::nonblocking]]"
    } else {
        ""
    }
}

fn append_function(text: &mut String, number: u32) -> Result<(), AllocError>
    requires { 1 ≤ number }
    ensures { OnOk result (string_bytes text.new ≡ string_bytes text.old ++ function_line number) }
{
    let mut name = Buffer::new();
    let mut element = Buffer::new();
    let mut callee = Buffer::new();
    let pieces = [
        "int f",
        name.format(number),
        "(int x)",
        attribute(number),
        " { g[",
        element.format(number % 8),
        "] = x; return f",
        callee.format((number - 1) / 2),
        "(x) + 1; }\n",
    ];
    append(text, &pieces)
}

fn append_call(text: &mut String, number: u32) -> Result<(), AllocError>
    ensures { OnOk result (string_bytes text.new ≡ string_bytes text.old ++ call_line number) }
{
    let mut name = Buffer::new();
    let mut argument = Buffer::new();
    let pieces = [
        "  s = s + f",
        name.format(number),
        "(",
        argument.format(number),
        ") % 100;\n",
    ];
    append(text, &pieces)
}

fn append_functions(text: &mut String, count: u32) -> Result<(), AllocError>
    requires { 1 ≤ count }
    ensures { OnOk result (string_bytes text.new ≡ string_bytes text.old ++ flat_map function_line (range_with_len 1 (count - 1))) }
{
    'functions: for number in 1..count {
        append_function(text, number)?;
    }
    Ok(())
}

fn append_calls(text: &mut String, count: u32) -> Result<(), AllocError>
    ensures { OnOk result (string_bytes text.new ≡ string_bytes text.old ++ flat_map call_line (range_with_len 0 count)) }
{
    'calls: for number in 0..count {
        append_call(text, number)?;
    }
    Ok(())
}

/// The text of so many functions, of which each but the first calls an earlier one, and of a `main` that calls them all.
pub fn generated_text(alloc: Global, count: u32) -> Result<String, AllocError>
    requires { 1 ≤ count }
    ensures { IfOk result (λ text. string_bytes text ≡ generated_text count) }
{
    let mut text = String::new(alloc);
    append(
        &mut text,
        &["int g[8];\n", "int f0(int x) { return x + 1; }\n"],
    )?;
    append_functions(&mut text, count)?;
    append(&mut text, &["int main(void) {\n", "  int s = 0;\n"])?;
    append_calls(&mut text, count)?;
    append(&mut text, &["  return s % 256;\n", "}\n"])?;
    Ok(text)
}
