//! The lines that tell what blobs say of themselves.

ghost use Rattle.std.specs.Prelude.{◌≡◌, ◌+◌, ◌≤◌, ◌++◌, ℕ, OnErr, OnOk, length, codes};
ghost use Rattle.std.specs.List.{flat_map};
ghost use Rattle.lerc_header.specs.Head.{version_number};
ghost use Rattle.outside_io.specs.streams.Faults.{CountsFaults};
ghost use Rattle.outside_io.specs.streams.Sink.{Holds, HoldsPrefix};
ghost use Rattle.lerc_cli.specs.answers.Outline.{checksum_line, word_line, number_line, signed_line, image_name, mask_line, shape_lines, value_lines, outline_lines};

use byteorder::{ByteOrder, LittleEndian};
use command_words::type_word;
use lerc_grammar::{ImageForm, MaskForm, Outline};
use lerc_header::{Header, Version};
use outside_io::{Failed, Line, Sink, give_all};

/// The number of a version.
fn version_number(version: Version) -> u64
    ensures { result ≡ version_number version }
{
    match version {
        Version::V3 => 3,
        Version::V4 => 4,
    }
}

/// The name of an image's form.
fn image_word(image: ImageForm) -> &'static [u8]
    ensures name { result.now ≡ image_name image }
    ensures short { length result.now ≤ 8 }
{
    match image {
        ImageForm::Empty => b"empty",
        ImageForm::Constant => b"constant",
        ImageForm::Ranges => b"ranges",
        ImageForm::Sweep { .. } => b"sweep",
        ImageForm::Blocks { .. } => b"blocks",
        ImageForm::Delta { .. } => b"delta",
        ImageForm::Plain { .. } => b"plain",
    }
}

/// Adds a line of a name and a word.
#[tactic(auto, unfolding(crate::specs::answers::Outline::word_line))]
fn add_word(line: &mut Line, name: &[u8], word: &[u8])
    requires { length line.old + length name.now + length word.now ≤ 190 }
    ensures text { line.new ≡ line.old ++ word_line name.now word.now }
    ensures longer { length line.new ≡ length line.old + length name.now + length word.now + 2 }
{
    line.text(name);
    line.text(b" ");
    line.text(word);
    line.text(b"\n");
}

/// Adds a line of a name and a number.
#[tactic(auto, unfolding(crate::specs::answers::Outline::word_line))]
pub(super) fn add_number(line: &mut Line, name: &[u8], n: u64)
    requires { length line.old + length name.now ≤ 170 }
    ensures text { line.new ≡ line.old ++ number_line name.now n }
    ensures short { length line.new ≤ length line.old + length name.now + 22 }
{
    line.text(name);
    line.number(n);
    line.text(b"\n");
}

/// Adds a line of a name and a number that may be negative.
fn add_signed(line: &mut Line, name: &[u8], n: i64)
    requires { length line.old + length name.now ≤ 170 }
    ensures text { line.new ≡ line.old ++ signed_line name.now n }
    ensures short { length line.new ≤ length line.old + length name.now + 22 }
{
    let mut digits = itoa::Buffer::new();
    add_word(line, name, digits.format(n).as_bytes());
}

/// Adds the line of a checksum: its bytes in hexadecimal, the lowest first.
#[tactic(auto, unfolding(crate::specs::answers::Outline::checksum_line))]
fn add_checksum(line: &mut Line, checksum: u32)
    requires { length line.old ≤ 170 }
    ensures text { line.new ≡ line.old ++ checksum_line checksum }
    ensures longer { length line.new ≡ length line.old + 18 }
{
    let mut bytes = [0; 4];
    LittleEndian::write_u32(&mut bytes, checksum);
    let mut digits = [0; 8];
    match hex::encode_to_slice(bytes.as_slice(), &mut digits) {
        Ok(()) => add_word(line, b"checksum", &digits),
        Err(_) => unreachable!(),
    }
}

/// The lines of what a header says of the raster's shape.
fn of_shape(header: Header) -> Line
    ensures { result ≡ shape_lines header }
{
    let mut line = Line::new();
    add_number(&mut line, b"version", version_number(header.version));
    add_word(&mut line, b"type", type_word(header.kind));
    add_number(&mut line, b"rows", header.rows.into());
    add_number(&mut line, b"cols", header.cols.into());
    add_number(&mut line, b"depth", header.depth.into());
    add_number(&mut line, b"valid", header.valid.into());
    line
}

/// The lines of what a header says of the blob and its values.
fn of_values(header: Header) -> Line
    ensures { result ≡ value_lines header }
{
    let mut line = Line::new();
    add_number(&mut line, b"side", header.side.into());
    add_number(&mut line, b"size", header.size.into());
    add_number(&mut line, b"step", header.step);
    add_signed(&mut line, b"least", header.least);
    add_signed(&mut line, b"greatest", header.greatest);
    add_checksum(&mut line, header.checksum);
    line
}

/// Adds the line of a mask's form.
fn add_mask(line: &mut Line, mask: MaskForm)
    requires { length line.old ≤ 100 }
    ensures text { line.new ≡ line.old ++ mask_line mask }
    ensures short { length line.new ≤ length line.old + 31 }
{
    match mask {
        MaskForm::Empty => add_word(line, b"mask", b"empty"),
        MaskForm::Full => add_word(line, b"mask", b"full"),
        MaskForm::Runs { len, .. } => add_number(line, b"mask runs", len.into()),
        MaskForm::Previous => add_word(line, b"mask", b"previous"),
    }
}

/// The lines of the forms of mask and image.
fn of_forms(mask: MaskForm, image: ImageForm) -> Line
    ensures { result ≡ mask_line mask ++ word_line (codes "image") (image_name image) }
{
    let mut line = Line::new();
    add_mask(&mut line, mask);
    add_word(&mut line, b"image", image_word(image));
    line
}

/// Gives the fourteen lines of a blob that says this of itself. It takes no memory.
fn give_outline<K: Sink>(outline: Outline, out: &mut K) -> Result<(), Failed>
    ensures ok { OnOk result (Holds (K.held out.old) (K.held out.new) (outline_lines outline)) }
    ensures err { OnErr result
        (HoldsPrefix (K.held out.old) (K.held out.new) (outline_lines outline)) }
    ensures counted { CountsFaults result (K.faults out.old) (K.faults out.new) }
{
    give_all(out, of_shape(outline.header).as_slice())?;
    give_all(out, of_values(outline.header).as_slice())?;
    give_all(out, of_forms(outline.mask, outline.image).as_slice())
}

/// Gives the lines of blobs that say this of themselves, fourteen for each. It takes no memory.
pub fn give_outlines<K: Sink>(outlines: &[Outline], out: &mut K) -> Result<(), Failed>
    ensures ok { OnOk result
        (Holds (K.held out.old) (K.held out.new) (flat_map outline_lines outlines.now)) }
    ensures err { OnErr result
        (HoldsPrefix (K.held out.old) (K.held out.new) (flat_map outline_lines outlines.now)) }
    ensures counted { CountsFaults result (K.faults out.old) (K.faults out.new) }
{
    for outline in outlines {
        match give_outline(*outline, out) {
            Ok(()) => {}
            Err(failed) => return Err(failed),
        }
    }
    Ok(())
}
