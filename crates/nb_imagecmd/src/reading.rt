//! The words of an image command, read.

ghost use Rattle.std.specs.Prelude.{◌≡◌, Ok, option_map};
ghost use Rattle.std.specs.Option.{option_copied};
ghost use Rattle.nb_imagecmd.specs.Reading.{ReadsAs, image_command, named_read, shown_source, source_read};
ghost use Rattle.nb_imagecmd.specs.Reading.{fetch_read, select_read, exec_read, exec_with};
ghost use Rattle.nb_imagecmd.specs.Reading.{imgargs_read, imgfree_read, imgstat_read};
ghost use Rattle.nb_imagecmd.specs.Options.{shown_options};
ghost use Rattle.nb_imagecmd.specs.declared.commands.ImageCommand.TheVariants as command;

use crate::command_names::ImageCommandName;
use crate::copies::{copy_given, copy_word, copy_words};
use crate::options::{Options, is_option, read_options};
use crate::{ImageCommand, PlanError};
use nb_wire::Word;
use std::alloc::Global;

/// The image command that words say, its name first. They are expanded already.
#[tactic(auto, unfolding(crate::specs::Reading::image_command))]
pub fn read_command(alloc: Global, words: &[Word]) -> Result<ImageCommand, PlanError>
    // What it is, or which of the two refusals, as one equation.
    ensures { ReadsAs result (image_command words.now) }
{
    let Some((name, args)) = words.split_first() else {
        return Err(PlanError::Unknown);
    };
    match ImageCommandName::named(name.as_slice()) {
        Some(command) => read_named(alloc, command, args),
        None => Err(PlanError::Unknown),
    }
}

/// The command of a name with the words after it.
fn read_named(
    alloc: Global,
    command: ImageCommandName,
    args: &[Word],
) -> Result<ImageCommand, PlanError>
    ensures { ReadsAs result (named_read command args.now) }
{
    match command {
        ImageCommandName::Imgfetch => read_fetch(alloc, args),
        ImageCommandName::Initrd => read_fetch(alloc, args),
        ImageCommandName::Module => read_fetch(alloc, args),
        ImageCommandName::Imgselect => read_select(alloc, args),
        ImageCommandName::Kernel => read_select(alloc, args),
        ImageCommandName::Imgload => read_select(alloc, args),
        ImageCommandName::Imgexec => read_exec(alloc, args),
        ImageCommandName::Chain => read_exec(alloc, args),
        ImageCommandName::Boot => read_exec(alloc, args),
        ImageCommandName::Imgargs => read_imgargs(alloc, args),
        ImageCommandName::Imgfree => read_imgfree(alloc, args),
        ImageCommandName::Imgstat => read_imgstat(args),
    }
}

/// What is fetched or found: the words of `[--name N] uri [args]`.
#[derive(Clone, Copy, Drop)]
pub(crate) struct Source<'a> {
    name: Option<&'a Word>,
    uri: &'a Word,
    args: &'a [Word],
}

fn read_source(words: &[Word]) -> Option<Source<'_>>
    ensures { option_map shown_source result ≡ source_read words.now }
{
    let options = read_options(words)?;
    if options.autofree || options.replace {
        return None;
    }
    let (uri, args) = options.rest.split_first()?;
    Some(Source {
        name: options.name,
        uri,
        args,
    })
}

fn read_fetch(alloc: Global, args: &[Word]) -> Result<ImageCommand, PlanError>
    ensures { ReadsAs result (fetch_read args.now) }
{
    match read_source(args) {
        Some(source) => Ok(ImageCommand::Fetch {
            name: copy_given(alloc, source.name)?,
            uri: copy_word(alloc, source.uri)?,
            args: copy_words(alloc, source.args)?,
        }),
        None => Err(PlanError::Usage),
    }
}

fn read_select(alloc: Global, args: &[Word]) -> Result<ImageCommand, PlanError>
    ensures { ReadsAs result (select_read args.now) }
{
    match read_source(args) {
        Some(source) => Ok(ImageCommand::Select {
            name: copy_given(alloc, source.name)?,
            uri: copy_word(alloc, source.uri)?,
            args: copy_words(alloc, source.args)?,
        }),
        None => Err(PlanError::Usage),
    }
}

fn read_exec(alloc: Global, args: &[Word]) -> Result<ImageCommand, PlanError>
    ensures { ReadsAs result (exec_read args.now) }
{
    match read_options(args) {
        Some(options) => exec(alloc, options),
        None => Err(PlanError::Usage),
    }
}

/// What is executed, after these options.
fn exec(alloc: Global, options: Options<'_>) -> Result<ImageCommand, PlanError>
    ensures { ReadsAs result (exec_with (shown_options options.entry)) }
{
    match options.rest {
        [uri, args @ ..] => exec_uri(alloc, options, Some(uri), args),
        [] => exec_uri(alloc, options, None, options.rest),
    }
}

fn exec_uri(
    alloc: Global,
    options: Options<'_>,
    uri: Option<&Word>,
    args: &[Word],
) -> Result<ImageCommand, PlanError>
    ensures { ReadsAs result (Ok (command.Exec (option_copied options.entry.name) options.entry.autofree
        options.entry.replace (option_copied uri.entry) args.now)) }
{
    Ok(ImageCommand::Exec {
        name: copy_given(alloc, options.name)?,
        autofree: options.autofree,
        replace: options.replace,
        uri: copy_given(alloc, uri)?,
        args: copy_words(alloc, args)?,
    })
}

#[tactic(auto, unfolding(crate::specs::Reading::imgargs_read))]
fn read_imgargs(alloc: Global, args: &[Word]) -> Result<ImageCommand, PlanError>
    ensures { ReadsAs result (imgargs_read args.now) }
{
    match args {
        [name, others @ ..] if !is_option(name) => Ok(ImageCommand::Imgargs {
            name: copy_word(alloc, name)?,
            args: copy_words(alloc, others)?,
        }),
        _ => Err(PlanError::Usage),
    }
}

#[tactic(auto, unfolding(crate::specs::Reading::imgfree_read))]
fn read_imgfree(alloc: Global, args: &[Word]) -> Result<ImageCommand, PlanError>
    ensures { ReadsAs result (imgfree_read args.now) }
{
    match args {
        [name, ..] if is_option(name) => Err(PlanError::Usage),
        _ => Ok(ImageCommand::Imgfree(copy_words(alloc, args)?)),
    }
}

#[tactic(auto, unfolding(crate::specs::Reading::imgstat_read))]
fn read_imgstat(args: &[Word]) -> Result<ImageCommand, PlanError>
    ensures { ReadsAs result (imgstat_read args.now) }
{
    match args {
        [] => Ok(ImageCommand::Imgstat),
        _ => Err(PlanError::Usage),
    }
}
