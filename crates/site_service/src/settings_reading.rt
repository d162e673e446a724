//! The settings that the lines have set so far.

ghost use Rattle.std.specs.Prelude.{◌≡◌, ◌⊎◌, Ok, Err, IfOk, IfErr, OnOk};
ghost use Rattle.script.specs.Script.{IsSettingWithinLimits};
ghost use Rattle.script.specs.declared.cause.FaultCause.TheVariants.{NoMemory};
ghost use Rattle.site_service.specs.Settings.{is_beyond, with_additions, with_origin, with_setting, with_table};
ghost use Rattle.site_service.specs.Reading.{so_far};

use crate::settings_line::{SettingsLine, SettingsWord};
use row_sets::Bytes;
use script::{
    FaultCause, LineReader, MAX_LINE, ScriptFault, Setting, Settings, Statement, read_line,
};
use site::SiteSettings;
use site_model::Origin;
use std::alloc::{AllocError, Allocator};

/// The settings that the lines have set so far.
#[derive(Drop)]
pub(crate) struct Reading<A: Allocator + Copy> {
    pub(crate) settings: Settings<A>,
    /// The tables with their widths, in order of entry.
    pub(crate) table_list: Vec<(u8, u16), A>,
    pub(crate) takes_additions: bool,
    pub(crate) origin: Option<Origin>,
}

impl<A: Allocator + Copy> Reading<A> {
    /// Takes the line by which procedures may be added, which stands once.
    fn let_procedures_be_added(&mut self) -> Result<(), FaultCause>
        ensures ok { OnOk result (with_additions (so_far self.old) ≡ Ok (so_far self.new)) }
        ensures fault { IfErr result (λ cause. with_additions (so_far self.old) ≡ Err cause) }
    {
        if self.takes_additions {
            return Err(FaultCause::Place);
        }
        self.takes_additions = true;
        Ok(())
    }

    /// Takes what came before the order, which stands once and before all requests.
    fn set_origin(&mut self, origin: Origin) -> Result<(), FaultCause>
        ensures ok { OnOk result (with_origin (so_far self.old) origin ≡ Ok (so_far self.new)) }
        ensures fault { IfErr result (λ cause. with_origin (so_far self.old) origin ≡ Err cause) }
    {
        if self.origin.is_some() || !self.settings.catalogue().requests().requests().is_empty() {
            return Err(FaultCause::Place);
        }
        self.origin = Some(origin);
        Ok(())
    }

    /// Takes a table, which stands before the origin.
    fn set_table(&mut self, table: u8, width: u16) -> Result<(), FaultCause>
        ensures ok { OnOk result (with_table (so_far self.old) table width ≡ Ok (so_far self.new)) }
        ensures fault { IfErr result (λ cause. (cause ≡ NoMemory)
            ⊎ (with_table (so_far self.old) table width ≡ Err cause)) }
    {
        if self.origin.is_some() {
            return Err(FaultCause::Place);
        }
        self.settings.set(Setting::Table { table, width })?;
        match self.table_list.push((table, width)) {
            Ok(()) => Ok(()),
            Err(_) => Err(FaultCause::NoMemory),
        }
    }

    /// Tells whether a session has a greater number than those of the origin.
    fn is_beyond(&self, session: u32) -> bool
        ensures { result ≡ is_beyond self.now.origin session }
    {
        match self.origin {
            Some(origin) => session > origin.sessions,
            None => false,
        }
    }

    /// Takes a setting of scripts. A number of replicas isn't taken, since a site has one replica.
    fn set(&mut self, setting: Setting<Bytes<A>>) -> Result<(), FaultCause>
        requires { IsSettingWithinLimits setting }
        ensures ok { OnOk result (with_setting (so_far self.old) setting ≡ Ok (so_far self.new)) }
        ensures fault { IfErr result (λ cause. (cause ≡ NoMemory)
            ⊎ (with_setting (so_far self.old) setting ≡ Err cause)) }
    {
        match setting {
            Setting::Replicas(_) => Err(FaultCause::Place),
            Setting::Table { table, width } => self.set_table(table, width),
            Setting::Origin { strings, sessions } => {
                self.set_origin(Origin { strings, sessions })
            }
            Setting::Request(request) if self.is_beyond(request.session) => {
                Err(FaultCause::Session)
            }
            setting => self.settings.set(setting),
        }
    }
}

impl<A: Allocator + Copy> LineReader<A> for Reading<A> {
    ghost use Rattle.std.proofs.Common.{ap};
    ghost use Rattle.script.proofs.LineLemmas.{says-too_long};
    ghost use Rattle.script.specs.Line.{fields_say};
    ghost use Rattle.script.specs.Text.{max_line};
    ghost use Rattle.site_model.specs.Standing.{SiteSetting};
    ghost use Rattle.site_service.specs.Settings.{SettingsSoFar, after_line, nothing_set, said_behind};
    ghost use Rattle.site_service.specs.Settings.{whole, with_line, word_of};
    ghost use Rattle.site.specs.Settings.{site_setting};
    ghost use Rattle.site_service.specs.Reading.{HasWindow, so_far};

    type Whole = SiteSettings<A>;

    ghost Meaning = { SettingsSoFar };

    ghost nothing_read = { nothing_set };

    ghost read_so_far = { so_far };

    ghost with_next = { with_line };

    ghost WholeMeaning = { SiteSetting };

    ghost meant_by = { site_setting };

    ghost at_end = { whole };

    ghost IsWithin = { HasWindow };

    ghost too_long = { λ set line long.
        ap (after_line set) (says-too_long (fields_say word_of said_behind) max_line line long) };

    fn new(alloc: A) -> Result<Reading<A>, AllocError> {
        Ok(Reading {
            settings: Settings::new(alloc)?,
            table_list: Vec::new(alloc),
            takes_additions: false,
            origin: None,
        })
    }

    fn take_line(&mut self, alloc: A, line: &[u8]) -> Result<(), FaultCause> {
        match read_line::<A, SettingsWord, SettingsLine<Bytes<A>>>(alloc, line, MAX_LINE)? {
            None => Ok(()),
            Some(SettingsLine::Additions) => self.let_procedures_be_added(),
            Some(SettingsLine::Statement(Statement::Setting(setting))) => self.set(setting),
            Some(SettingsLine::Statement(Statement::Action(_))) => Err(FaultCause::Place),
        }
    }

    // The window has to be set.
    fn into_whole(self) -> Result<SiteSettings<A>, ScriptFault> {
        let Reading {
            settings,
            table_list,
            takes_additions,
            origin,
        } = self;
        let Some(window) = settings.window() else {
            return Err(ScriptFault {
                line: 0,
                cause: FaultCause::Place,
            });
        };
        Ok(SiteSettings {
            window,
            catalogue: settings.into_catalogue(),
            table_list,
            takes_additions,
            origin,
        })
    }
}
