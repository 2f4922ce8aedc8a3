//! How shells complete the words of the program: by what its own `--help` says, so that they never say another thing.

/// A shell that completes words.
#[derive(Clone, Copy, Debug, PartialEq, Eq)]
pub enum Shell {
    Bash,
    Zsh,
    Fish,
}

// To be read by bash, as from /usr/share/bash-completion/completions/hx_tape.
const BASH: &str = r#"# How bash completes the words of hx_tape: by its own --help.
_hx_tape() {
    local word=${COMP_WORDS[COMP_CWORD]} command= at
    for ((at = 1; at < COMP_CWORD; at++)); do
        case ${COMP_WORDS[at]} in
            -*) ;;
            *)
                command=${COMP_WORDS[at]}
                break
                ;;
        esac
    done
    mapfile -t COMPREPLY < <(compgen -W "$("${COMP_WORDS[0]}" $command --help 2>/dev/null | awk '
        /^[A-Z]/ { commands = /^Commands:/ }
        commands && /^  [a-z]/ { print $1 }
        /^ +(-[a-zA-Z], )?--[a-z]/ { sub(/^ +(-[a-zA-Z], )?/, ""); sub(/[ ,].*/, ""); print }')" -- "$word")
}
complete -o default -F _hx_tape hx_tape
"#;

// To be read by zsh, as _hx_tape in a folder of its fpath.
const ZSH: &str = r#"#compdef hx_tape
# How zsh completes the words of hx_tape: by its own --help.
_hx_tape() {
    local word command=
    local -a found
    for word in ${words[2,CURRENT-1]}; do
        if [[ $word != -* ]]; then
            command=$word
            break
        fi
    done
    found=(${(f)"$(${words[1]} $command --help 2>/dev/null | awk '
        /^[A-Z]/ { commands = /^Commands:/ }
        commands && /^  [a-z]/ { print $1 }
        /^ +(-[a-zA-Z], )?--[a-z]/ { sub(/^ +(-[a-zA-Z], )?/, ""); sub(/[ ,].*/, ""); print }')"})
    compadd -a found
    _files
}
if [[ $funcstack[1] == _hx_tape ]]; then
    _hx_tape "$@"
else
    compdef _hx_tape hx_tape
fi
"#;

// To be read by fish, as from vendor_completions.d/hx_tape.fish.
const FISH: &str = r#"# How fish completes the words of hx_tape: by its own --help.
function __hx_tape_words
    set -l words (commandline -opc)
    set -l command
    for word in $words[2..]
        if not string match -q -- '-*' $word
            set command $word
            break
        end
    end
    $words[1] $command --help 2>/dev/null | awk '
        /^[A-Z]/ { commands = /^Commands:/ }
        commands && /^  [a-z]/ { print $1 }
        /^ +(-[a-zA-Z], )?--[a-z]/ { sub(/^ +(-[a-zA-Z], )?/, ""); sub(/[ ,].*/, ""); print }'
end
complete -c hx_tape -a '(__hx_tape_words)'
"#;

impl Shell {
    /// The shell of this name, if it is one of the three.
    pub fn of(name: &str) -> Option<Shell> {
        match name {
            "bash" => Some(Shell::Bash),
            "zsh" => Some(Shell::Zsh),
            "fish" => Some(Shell::Fish),
            _ => None,
        }
    }

    /// What it has to read.
    pub fn completions(self) -> &'static str {
        match self {
            Shell::Bash => BASH,
            Shell::Zsh => ZSH,
            Shell::Fish => FISH,
        }
    }
}
