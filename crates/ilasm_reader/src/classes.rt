//! Assemblies, classes and their members.

ghost use Rattle.ilasm_tokens.specs.Steps.{Gives, many};
ghost use Rattle.ilasm_reader.specs.Parsing.{assembly_at, base_at, block_at, class_at, class_body_at, class_words_at, extern_at, field_at, field_words_at, implements_at, in_block, interface_at, interface_member_at, interface_words_at, member_at, named_assembly_at, plain_class_at, starts_extern, tree_at};

use crate::lists::{Parse, Starts, commas, in_block, many};
use crate::methods::method;
use crate::single::{
    empty_block, expect_symbol, expect_symbol_of, expect_word, expect_word_of, expect_words, name,
    starts_word, take_word,
};
use crate::types::{AnyType, ClassReference, PlainName};
use cil_model::sequences::Sequence;
use cil_model::texts::Text;
use cil_model::tokens::Symbol;
use cil_model::trees::{Class, ClassKind, Field, Member, Tree};
use cil_model::types::ClassName;
use ilasm_tokens::expected::Expected;
use ilasm_tokens::failure::Failure;
use ilasm_tokens::source_tokens::Tokens;
use std::alloc::Global;

/// How many members, classes or assemblies memory is taken for at first.
const FEW: usize = 4;

/// Takes the words before a field's type, and returns whether it is static.
#[tactic(auto, unfolding(crate::specs::Parsing::field_words_at, crate::specs::Parsing::words_at, ilasm_tokens::specs::Steps::bind))]
fn field_words(tokens: &mut Tokens<'_>) -> Result<bool, Failure>
    ensures { Gives (λ x. (x, tokens.new.now)) result (field_words_at tokens.old.now) }
{
    expect_words(tokens, &[b".field", b"public"])?;
    Ok(take_word(tokens, b"static"))
}

/// A field.
#[tactic(auto, unfolding(crate::specs::Parsing::field_at, ilasm_tokens::specs::Steps::bind))]
fn field(alloc: Global, tokens: &mut Tokens<'_>) -> Result<Field, Failure>
    ensures { Gives (λ x. (x, tokens.new.now)) result (field_at tokens.old.now) }
{
    let is_static = field_words(tokens)?;
    let (field_type, name) = <(AnyType, PlainName)>::parse(alloc, tokens)?;
    Ok(Field {
        is_static,
        field_type,
        name,
    })
}

/// A member of an interface, which is a method.
pub struct InterfaceMember;

impl Parse for InterfaceMember {
    ghost use Rattle.ilasm_reader.specs.Sound.{interface_member_sound};

    type Tree = Member;

    ghost parsed_at = { interface_member_at };

    #[tactic(auto, unfolding(crate::specs::Parsing::interface_member_at, ilasm_tokens::specs::Steps::bind))]
    fn parse(alloc: Global, tokens: &mut Tokens<'_>) -> Result<Member, Failure> {
        let method = method(alloc, tokens, Expected::InterfaceMember)?;
        Ok(Member::Method(method))
    }

    ghost consumes = { λ ts x rest e. ((interface_member_sound ts).out (x, rest) e).1 };
}

impl Starts for InterfaceMember {
    ghost starts_at = { in_block };

    fn starts(tokens: Tokens<'_>) -> bool {
        in_block(tokens)
    }
}

/// A member of a class.
pub struct AnyMember;

impl Parse for AnyMember {
    ghost use Rattle.ilasm_reader.specs.Sound.{member_sound};

    type Tree = Member;

    ghost parsed_at = { member_at };

    #[tactic(auto, unfolding(crate::specs::Parsing::member_at, crate::specs::Parsing::interface_member_at, ilasm_tokens::specs::Steps::bind, ilasm_tokens::specs::Steps::choice))]
    fn parse(alloc: Global, tokens: &mut Tokens<'_>) -> Result<Member, Failure> {
        if starts_word(*tokens, b".field") {
            let field = field(alloc, tokens)?;
            return Ok(Member::Field(field));
        }
        let method = method(alloc, tokens, Expected::Member)?;
        Ok(Member::Method(method))
    }

    ghost consumes = { λ ts x rest e. ((member_sound ts).out (x, rest) e).1 };
}

impl Starts for AnyMember {
    ghost starts_at = { in_block };

    fn starts(tokens: Tokens<'_>) -> bool {
        in_block(tokens)
    }
}

/// Members in braces. Where one more may be written, the grammar has what is given as `expected`.
#[tactic(auto, unfolding(crate::specs::Parsing::block_at, crate::specs::Parsing::before_sign_at, ilasm_tokens::specs::Steps::bind))]
fn block<P: Starts>(
    alloc: Global,
    tokens: &mut Tokens<'_>,
    expected: Expected,
) -> Result<Sequence<P::Tree>, Failure>
    ensures { Gives (λ x. (x, tokens.new.now)) result (block_at P.starts_at P.parsed_at tokens.old.now) }
{
    expect_symbol(tokens, Symbol::OpenBrace)?;
    let members = many::<P>(alloc, tokens, FEW)?;
    expect_symbol_of(tokens, Symbol::CloseBrace, expected)?;
    Ok(members)
}

/// The interfaces that a class lists; none where they are left out.
#[tactic(auto, unfolding(crate::specs::Parsing::implements_at, ilasm_tokens::specs::Steps::choice))]
fn implements(alloc: Global, tokens: &mut Tokens<'_>) -> Result<Sequence<ClassName>, Failure>
    ensures { Gives (λ x. (x, tokens.new.now)) result (implements_at tokens.old.now) }
{
    if take_word(tokens, b"implements") {
        commas::<ClassReference>(alloc, tokens)
    } else {
        Ok(Sequence::new(Vec::new(alloc)))
    }
}

/// Takes the words before an interface's name, after `.class`.
#[tactic(auto, unfolding(crate::specs::Parsing::interface_words_at, crate::specs::Parsing::words_at, ilasm_tokens::specs::Steps::bind))]
fn interface_words(tokens: &mut Tokens<'_>) -> Result<(), Failure>
    ensures { Gives (λ _. tokens.new.now) result (interface_words_at tokens.old.now) }
{
    expect_words(
        tokens,
        &[b"interface", b"public", b"abstract", b"auto", b"ansi"],
    )
}

/// The members of an interface, in braces.
struct InterfaceMembers;

impl Parse for InterfaceMembers {
    ghost use Rattle.ilasm_reader.specs.Sound.{interface_members_sound};

    type Tree = Sequence<Member>;

    ghost parsed_at = { block_at in_block interface_member_at };

    fn parse(alloc: Global, tokens: &mut Tokens<'_>) -> Result<Sequence<Member>, Failure> {
        block::<InterfaceMember>(alloc, tokens, Expected::InterfaceMember)
    }

    ghost consumes = { λ ts x rest e. ((interface_members_sound ts).out (x, rest) e).1 };
}

/// An interface, after the word `.class`.
#[tactic(auto, unfolding(crate::specs::Parsing::interface_at, ilasm_tokens::specs::Steps::bind))]
fn interface(alloc: Global, tokens: &mut Tokens<'_>) -> Result<Class, Failure>
    ensures { Gives (λ x. (x, tokens.new.now)) result (interface_at tokens.old.now) }
{
    interface_words(tokens)?;
    let (name, members) = <(PlainName, InterfaceMembers)>::parse(alloc, tokens)?;
    let kind = ClassKind::Interface;
    Ok(Class {
        name,
        kind,
        members,
    })
}

/// What is written before `auto`, after `abstract` or without it.
fn attributes_after(is_abstract: bool) -> Expected {
    if is_abstract {
        Expected::Word(b"auto")
    } else {
        Expected::ClassAttributes
    }
}

/// Takes the words before the name of a class that is no interface, and returns whether it is abstract.
#[tactic(auto, unfolding(crate::specs::Parsing::class_words_at, ilasm_tokens::specs::Steps::bind))]
fn class_words(tokens: &mut Tokens<'_>) -> Result<bool, Failure>
    ensures { Gives (λ x. (x, tokens.new.now)) result (class_words_at tokens.old.now) }
{
    expect_word_of(tokens, b"public", Expected::ClassHead)?;
    let is_abstract = take_word(tokens, b"abstract");
    expect_word_of(tokens, b"auto", attributes_after(is_abstract))?;
    expect_word(tokens, b"ansi")?;
    Ok(is_abstract)
}

/// The class that a class extends.
struct Base;

impl Parse for Base {
    ghost use Rattle.ilasm_reader.specs.Sound.{base_sound};

    type Tree = ClassName;

    ghost parsed_at = { base_at };

    #[tactic(auto, unfolding(crate::specs::Parsing::base_at, ilasm_tokens::specs::Steps::bind))]
    fn parse(alloc: Global, tokens: &mut Tokens<'_>) -> Result<ClassName, Failure> {
        expect_word(tokens, b"extends")?;
        ClassReference::parse(alloc, tokens)
    }

    ghost consumes = { λ ts x rest e. ((base_sound ts).out (x, rest) e).1 };
}

/// The interfaces that a class lists, and its members.
struct ClassBody;

impl Parse for ClassBody {
    ghost use Rattle.ilasm_reader.specs.Sound.{class_body_sound};

    type Tree = (Sequence<ClassName>, Sequence<Member>);

    ghost parsed_at = { class_body_at };

    #[tactic(auto, unfolding(crate::specs::Parsing::class_body_at, ilasm_tokens::specs::Steps::bind))]
    fn parse(alloc: Global, tokens: &mut Tokens<'_>) -> Result<Self::Tree, Failure> {
        let interfaces = implements(alloc, tokens)?;
        let members = block::<AnyMember>(alloc, tokens, Expected::Member)?;
        Ok((interfaces, members))
    }

    ghost consumes = { λ ts x rest e. ((class_body_sound ts).out (x, rest) e).1 };
}

/// A class that is no interface, after the word `.class`.
#[tactic(auto, unfolding(crate::specs::Parsing::plain_class_at, ilasm_tokens::specs::Steps::bind))]
fn plain_class(alloc: Global, tokens: &mut Tokens<'_>) -> Result<Class, Failure>
    ensures { Gives (λ x. (x, tokens.new.now)) result (plain_class_at tokens.old.now) }
{
    let is_abstract = class_words(tokens)?;
    let parts = <(PlainName, (Base, ClassBody))>::parse(alloc, tokens)?;
    let (name, (base, (interfaces, members))) = parts;
    let kind = ClassKind::Class {
        is_abstract,
        base,
        interfaces,
    };
    Ok(Class {
        name,
        kind,
        members,
    })
}

/// A class or an interface.
pub struct AnyClass;

impl Parse for AnyClass {
    ghost use Rattle.ilasm_reader.specs.Sound.{class_sound};

    type Tree = Class;

    ghost parsed_at = { class_at };

    #[tactic(auto, unfolding(crate::specs::Parsing::class_at, ilasm_tokens::specs::Steps::bind, ilasm_tokens::specs::Steps::choice))]
    fn parse(alloc: Global, tokens: &mut Tokens<'_>) -> Result<Class, Failure> {
        expect_word_of(tokens, b".class", Expected::Class)?;
        if starts_word(*tokens, b"interface") {
            interface(alloc, tokens)
        } else {
            plain_class(alloc, tokens)
        }
    }

    ghost consumes = { λ ts x rest e. ((class_sound ts).out (x, rest) e).1 };
}

impl Starts for AnyClass {
    ghost starts_at = { in_block };

    fn starts(tokens: Tokens<'_>) -> bool {
        in_block(tokens)
    }
}

/// The name of an assembly, and an empty block. Where there is no name, the grammar has what is given as `expected`.
#[tactic(auto, unfolding(crate::specs::Parsing::named_assembly_at, ilasm_tokens::specs::Steps::bind))]
fn named_assembly(
    alloc: Global,
    tokens: &mut Tokens<'_>,
    expected: Expected,
) -> Result<Text, Failure>
    ensures { Gives (λ x. (x, tokens.new.now)) result (named_assembly_at tokens.old.now) }
{
    let name = name(alloc, tokens, expected)?;
    empty_block(tokens)?;
    Ok(name)
}

/// An assembly that the source uses.
pub struct Extern;

impl Parse for Extern {
    ghost use Rattle.ilasm_reader.specs.Sound.{extern_sound};

    type Tree = Text;

    ghost parsed_at = { extern_at };

    #[tactic(auto, unfolding(crate::specs::Parsing::extern_at, crate::specs::Parsing::words_at, ilasm_tokens::specs::Steps::bind))]
    fn parse(alloc: Global, tokens: &mut Tokens<'_>) -> Result<Text, Failure> {
        expect_words(tokens, &[b".assembly", b"extern"])?;
        named_assembly(alloc, tokens, Expected::Name)
    }

    ghost consumes = { λ ts x rest e. ((extern_sound ts).out (x, rest) e).1 };
}

impl Starts for Extern {
    ghost starts_at = { starts_extern };

    #[tactic(auto, unfolding(crate::specs::Parsing::starts_extern, ilasm_tokens::specs::Steps::choice))]
    fn starts(tokens: Tokens<'_>) -> bool {
        let mut ahead = tokens;
        take_word(&mut ahead, b".assembly") && take_word(&mut ahead, b"extern")
    }
}

/// The source's own assembly, if it is named.
#[tactic(auto, unfolding(crate::specs::Parsing::assembly_at, ilasm_tokens::specs::Steps::bind, ilasm_tokens::specs::Steps::choice))]
fn assembly(alloc: Global, tokens: &mut Tokens<'_>) -> Result<Option<Text>, Failure>
    ensures { Gives (λ x. (x, tokens.new.now)) result (assembly_at tokens.old.now) }
{
    if !take_word(tokens, b".assembly") {
        return Ok(None);
    }
    let name = named_assembly(alloc, tokens, Expected::AssemblyName)?;
    Ok(Some(name))
}

/// What is expected where the first class may begin, after the source's own assembly or without it.
fn classes_after(has_assembly: bool) -> Expected {
    if has_assembly {
        Expected::Class
    } else {
        Expected::Declaration
    }
}

/// What is expected where a class may begin, after this number of classes; `start` after none.
fn class_after(classes: usize, start: Expected) -> Expected {
    if classes == 0 { start } else { Expected::Class }
}

/// All classes that follow here. Where the first may begin, the grammar has what is given as `start`.
fn classes(
    alloc: Global,
    tokens: &mut Tokens<'_>,
    start: Expected,
) -> Result<Sequence<Class>, Failure>
    ensures { Gives (λ x. (x, tokens.new.now)) result (many in_block class_at tokens.old.now) }
{
    let all = tokens.len();
    match many::<AnyClass>(alloc, tokens, FEW) {
        Err(Failure::Refused { left, .. }) if left == all => Err(Failure::Refused {
            left,
            expected: start,
        }),
        read => read,
    }
}

/// The tree of all of the tokens.
#[tactic(auto, unfolding(crate::specs::Parsing::tree_at, ilasm_tokens::specs::Steps::bind))]
pub fn tree(alloc: Global, tokens: Tokens<'_>) -> Result<Tree, Failure>
    ensures { Gives (λ tree. tree) result (tree_at tokens.now) }
{
    let mut rest = tokens;
    let externs = many::<Extern>(alloc, &mut rest, FEW)?;
    let assembly = assembly(alloc, &mut rest)?;
    let start = classes_after(assembly.is_some());
    let classes = classes(alloc, &mut rest, start)?;
    if !rest.is_empty() {
        return Err(Failure::Refused {
            left: rest.len(),
            expected: class_after(classes.as_slice().len(), start),
        });
    }
    Ok(Tree {
        externs,
        assembly,
        classes,
    })
}
