//! The pages on codes and words, as `explain` prints them.
ghost use Rattle.std.specs.Prelude.{◌≡◌, ◌++◌, codes, IfOk, OnOk, option_copied, option_map, flat_map};
ghost use Rattle.chip_pages.specs.Pages.{IsExplained, IsContents, IsPageOn, contents_text, example_text, indented, last_label, page_of, page_text};

use crate::pages::{Example, Page, command_pages, end_pages, line_pages, word_pages};
use std::alloc::{AllocError, Global};

/// Returns the text of the page on a code or a word, or `None` if there is no such page. The case of
/// letters doesn't matter. Fails only if memory runs out.
pub fn page_text(alloc: Global, code: &str) -> Result<Option<Vec<u8>>, AllocError>
    ensures { IfOk result (λ text. IsExplained code.now (option_map (λ page. page.items) text)) }
{
    match page_on(code) {
        Some(page) => Ok(Some(text_of(alloc, page)?)),
        None => Ok(None),
    }
}

/// Returns the page on a code or a word, in upper or lower case, or `None` if there is no such page.
pub fn page_on(code: &str) -> Option<&'static Page>
    ensures { IsPageOn code.now (option_copied result) }
{
    page_among(line_pages(), code)
        .or(page_among(command_pages(), code))
        .or(page_among(end_pages(), code))
        .or(page_among(word_pages(), code))
}

#[tactic(auto, unfolding(crate::specs::Pages::page_of))]
fn page_among<'a>(pages: &'a [Page], code: &str) -> Option<&'a Page>
    ensures { option_copied result ≡ page_of pages.now code.now }
{
    pages
        .iter()
        .find(|page| page.code.eq_ignore_ascii_case(code))
}

/// Returns all codes and words with their titles, one per line. Fails only if memory runs out.
pub fn contents(alloc: Global) -> Result<Vec<u8>, AllocError>
    ensures { IfOk result (λ text. IsContents text.items) }
{
    let mut text = Vec::new(alloc);
    push_titles(&mut text, line_pages())?;
    push_titles(&mut text, command_pages())?;
    push_titles(&mut text, end_pages())?;
    push_titles(&mut text, word_pages())?;
    Ok(text)
}

#[tactic(auto, unfolding(crate::specs::Pages::contents_text))]
fn push_titles(text: &mut Vec<u8>, pages: &[Page]) -> Result<(), AllocError>
    ensures { OnOk result (text.new.items ≡ text.old.items ++ contents_text pages.now) }
{
    for page in pages {
        push_all(text, &[page.code, "  ", page.title, "\n"])?;
    }
    Ok(())
}

fn text_of(alloc: Global, page: &Page) -> Result<Vec<u8>, AllocError>
    ensures { IfOk result (λ text. text.items ≡ page_text page.now) }
{
    let mut text = Vec::new(alloc);
    push_all(
        &mut text,
        &[page.code, ": ", page.title, "\n\n", page.meaning, "\n\n"],
    )?;
    push_example(&mut text, &page.example)?;
    push_all(&mut text, &[last_label(&page.example), page.fix, "\n"])?;
    Ok(text)
}

// Returns the label before the last sentence of a page with an example of this kind.
fn last_label(example: &Example) -> &'static str
    ensures { result.now ≡ last_label example.now }
{
    match example {
        Example::Answer { .. } => "\nSee also: ",
        _ => "\nThe fix: ",
    }
}

fn push_example(text: &mut Vec<u8>, example: &Example) -> Result<(), AllocError>
    ensures { OnOk result (text.new.items ≡ text.old.items ++ example_text example.now) }
{
    match *example {
        Example::Source(source) => {
            push_indented(text, "The last line of this source has it:\n\n", source)
        }
        Example::Script { source, script } => {
            push_indented(text, "On this source:\n\n", source)?;
            push_indented(
                text,
                "\nthe last of these commands is refused so:\n\n",
                script,
            )?;
            Ok(())
        }
        Example::Stop(source) => {
            push_indented(
                text,
                "The program of this source stops so, as `regs 100` shows:\n\n",
                source,
            )
        }
        Example::Answer {
            source,
            script,
            answer,
        } => {
            push_indented(text, "On this source:\n\n", source)?;
            push_indented(text, "\nthe answer to this:\n\n", script)?;
            push_indented(text, "\nis this:\n\n", answer)?;
            Ok(())
        }
        Example::Told(what) => push_all(text, &["An example: ", what, "\n"]),
    }
}

// Appends the introduction, and then each of the lines with four spaces before it.
fn push_indented(text: &mut Vec<u8>, introduction: &str, lines: &str) -> Result<(), AllocError>
    ensures { OnOk result (text.new.items
        ≡ text.old.items ++ (introduction.now ++ indented lines.now)) }
{
    text.extend_from_slice(introduction.as_bytes())?;
    for line in lines.lines() {
        push_all(text, &["    ", line, "\n"])?;
    }
    Ok(())
}

fn push_all(text: &mut Vec<u8>, parts: &[&str]) -> Result<(), AllocError>
    ensures { OnOk result (text.new.items
        ≡ text.old.items ++ flat_map (λ part. part.now) parts.now) }
{
    for part in parts {
        text.extend_from_slice(part.as_bytes())?;
    }
    Ok(())
}
